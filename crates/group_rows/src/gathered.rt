ghost use Rattle.std.specs.Prelude.{◌≡◌, ◌+◌, ◌++◌, ◌∷◌, [], IfErr, OnOk, IfOk};
ghost use Rattle.outside.specs.Blocks.{most_blocks};
ghost use Rattle.block_space.specs.declared.plan.PlanStop.TheVariants.{NoMemory};

use block_space::PlanStop;
use plan_pieces::Image;
use std::alloc::Global;

/// So many nodes are named below a root at most: as many as a file has blocks.
const MOST_NODES: usize = 1_048_576;

/// What was gathered of the nodes that were read so far.
#[derive(Debug, Drop)]
pub(crate) struct Gathered {
    /// The bytes of their blocks.
    pub(crate) images: Vec<Image>,
    /// The greatest offset in the heap that they have in use.
    pub(crate) last: Option<u64>,
    /// How many nodes more may be named.
    pub(crate) left: usize,
}

impl Gathered {
    /// Nothing was read yet.
    pub(crate) fn new(alloc: Global) -> Gathered
        ensures images { result.images.items ≡ [] }
        ensures last { result.last ≡ None }
        ensures left { result.left ≡ most_blocks }
    {
        Gathered {
            images: Vec::new(alloc),
            last: None,
            left: MOST_NODES,
        }
    }
}

/// Keeps a value behind the others.
pub(crate) fn keep<T: Drop>(values: &mut Vec<T>, value: T) -> Result<(), PlanStop>
    ensures kept { OnOk result (values.new.items ≡ values.old.items ++ value ∷ []) }
    ensures memory { IfErr result (λ stop. stop ≡ NoMemory) }
{
    match values.push(value) {
        Ok(()) => Ok(()),
        Err(_) => Err(PlanStop::NoMemory),
    }
}
