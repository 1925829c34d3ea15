ghost use Rattle.std.specs.Prelude.{◌≡◌, ◌+◌, ◌^◌, ◌<◌, length};
ghost use Rattle.block_space.specs.Plans.{needed, number_of, rounded, sum_of};
ghost use Rattle.h5_base.specs.declared.extent.MemClass.{MemClass};
ghost use Rattle.plan_pieces.specs.Images.{takes_of};
ghost use Rattle.plan_pieces.specs.Plan.{IsWithBlock, NeedsBelow};

use crate::image::NewBlock;
use block_space::Needs;
use h5_base::MemClass;

/// Nothing is needed.
pub fn no_needs() -> Needs
    ensures bytes { (c : MemClass) → needed result c ≡ 0 }
    ensures blocks { result.blocks ≡ 0 }
{
    Needs {
        bytes: [0; 6],
        blocks: 0,
    }
}

/// The place of a class among the six.
fn number(class: MemClass) -> usize
    ensures { result ≡ number_of class }
{
    match class {
        MemClass::Super => 0,
        MemClass::Tree => 1,
        MemClass::Raw => 2,
        MemClass::GlobalHeap => 3,
        MemClass::LocalHeap => 4,
        MemClass::Header => 5,
    }
}

/// What is needed with one block more of a class, of so many bytes.
pub fn with_block(needs: &Needs, class: MemClass, len: u64) -> Needs
    requires bytes { needed needs.now class + rounded len < 2 ^ 64 }
    requires blocks { needs.now.blocks + 1 < 2 ^ 32 }
    ensures { IsWithBlock needs.now class len result }
{
    let mut bytes = needs.bytes;
    let i = number(class);
    bytes[i] += (len + 7) / 8 * 8;
    Needs {
        bytes,
        blocks: needs.blocks + 1,
    }
}

/// The sums and the number of blocks that are taken.
pub(crate) fn needs_of(fills: &[NewBlock]) -> Needs
    requires small { NeedsBelow fills.now }
    requires few { length fills.now < 2 ^ 32 }
    ensures bytes { (c : MemClass) → needed result c ≡ sum_of c (takes_of fills.now) }
    ensures blocks { result.blocks ≡ length fills.now }
{
    let mut needs = no_needs();
    for fill in fills {
        needs = with_block(&needs, fill.class, fill.image.bytes.len() as u64);
    }
    needs
}
