ghost use Rattle.std.specs.Prelude.{◌≡◌, List, None, IfErr, IfOk, IfSome, IsErrOf, IsTrue, OnOk};
ghost use Rattle.std.specs.List.{Contains};
ghost use Rattle.outside.specs.Blocks.{Block};
ghost use Rattle.block_space.specs.Blocks.{Keeps, space_of};
ghost use Rattle.block_space.specs.Catalogue.{block_of, blocks_of};
ghost use Rattle.block_space.specs.Plans.{FitsCatalogue};
ghost use Rattle.h5_session.specs.Doing.{ComesTo, InPart};
ghost use Rattle.h5_session.specs.Stops.{HasCauses, IsFault, IsMalformed};

use crate::stop::{StepStop, of_write};
use block_space::{Blocks, EditPlan};
use edit_room::{RoomStop, reserve_edit};
use h5_base::Extent;
use outside::Space;
use std::alloc::Global;

/// What came of a plan.
#[derive(Clone, Copy, Debug, PartialEq, Eq)]
pub(crate) enum Outcome {
    /// It passes a limit, and nothing was done.
    Limit,
    /// A region that ends at `end` hasn't room for `need` bytes, and nothing was done.
    Full { end: u64, need: u64 },
    /// It was done.
    Done,
}

/// Judges a plan, makes room for it and for the range that closes the file, and does it. Nothing is written before all
/// room is made.
pub(crate) fn do_plan<V: Space>(
    alloc: Global,
    blocks: &mut Blocks<V>,
    plan: &EditPlan,
    closing: Option<Extent>,
) -> Result<Outcome, StepStop>
    requires stands { V.Stands (space_of blocks.old) }
    requires writable { IsTrue (V.view (space_of blocks.old)).writable }
    requires listed { (met : List Block) × Keeps V.view blocks.old met × FitsCatalogue met plan.now }
    requires closing { IfSome closing (λ _. (V.view (space_of blocks.old)).committed ≡ None) }
    ensures comes { IfOk result (λ outcome. (met : List Block) → Keeps V.view blocks.old met
        → FitsCatalogue met plan.now → ComesTo V.view V.tells blocks.old blocks.new met plan.now outcome) }
    ensures closes { IfOk result (λ outcome. outcome ≡ Outcome.Done → IfSome closing
        (λ range. Contains (blocks_of (V.view (space_of blocks.new)).prepared) (block_of range))) }
    ensures in_part { IsTrue V.tells → IfErr result (λ stop. IsFault stop → (met : List Block)
        → Keeps V.view blocks.old met → FitsCatalogue met plan.now
        → InPart (V.view (space_of blocks.old)) (V.view (space_of blocks.new)) met plan.now) }
    ensures readied { IsErrOf result StepStop.NoMemory → V.Readied (space_of blocks.old) (space_of blocks.new) }
    ensures kept { IsErrOf result StepStop.NoMemory
        → (met : List Block) → Keeps V.view blocks.old met → Keeps V.view blocks.new met }
    ensures given { IsErrOf result StepStop.NoMemory → IfSome closing (λ range.
        Contains (blocks_of (V.view (space_of blocks.old)).prepared) (block_of range)
        → Contains (blocks_of (V.view (space_of blocks.new)).prepared) (block_of range)) }
    ensures stands { OnOk result (V.Stands (space_of blocks.new)) }
    ensures cause { HasCauses (V.faults (space_of blocks.old)) (V.faults (space_of blocks.new))
        (V.copy_faults (space_of blocks.old)) (V.copy_faults (space_of blocks.new)) result }
    ensures well { IfErr result (λ stop. ¬ IsMalformed stop) }
    ensures edited { V.Edited (space_of blocks.old) (space_of blocks.new) }
{
    match reserve_edit(alloc, blocks, plan, closing) {
        Ok(_) => {}
        Err(RoomStop::Limit) => return Ok(Outcome::Limit),
        Err(RoomStop::Full { end, need }) => return Ok(Outcome::Full { end, need }),
        Err(RoomStop::NoMemory) => return Err(StepStop::NoMemory),
    }
    match blocks.apply(plan) {
        Ok(()) => Ok(Outcome::Done),
        Err(stop) => Err(of_write(stop)),
    }
}
