ghost use Rattle.std.specs.Prelude.{IsTrue, List, OnOk, length};
ghost use Rattle.outside.specs.Blocks.{Block};
ghost use Rattle.outside.specs.Space.{HasCauses};
ghost use Rattle.block_space.specs.Applied.{Applies};
ghost use Rattle.block_space.specs.Blocks.{Keeps, space_of, spare_of};
ghost use Rattle.block_space.specs.Plans.{FitsCatalogue};
ghost use Rattle.block_space.specs.Reserved.{IsReserved};
ghost use Rattle.group_edit.specs.Applied.{InsertsNow, RemovesNow};

use block_space::{Blocks, EditPlan};
use outside::{Space, WriteStop};

/// Does the plan of one link more, which was reserved: just the blocks of what is ahead of it were taken since it was
/// made. It takes no memory.
pub fn apply_insert<V: Space>(blocks: &mut Blocks<V>, plan: &EditPlan) -> Result<(), WriteStop>
    requires stands { V.Stands (space_of blocks.old) }
    requires reserved { (met : List Block) × Keeps V.view blocks.old met × FitsCatalogue met plan.now
        × IsReserved (V.view (space_of blocks.old)) (spare_of blocks.old) (length met) plan.now }
    ensures inserts { IsTrue V.tells → OnOk result (InsertsNow V.view blocks.old blocks.new plan.now) }
    ensures applies { Applies V.view V.tells blocks.old blocks.new plan.now result }
    ensures stands { OnOk result (V.Stands (space_of blocks.new)) }
    ensures cause { HasCauses (V.faults (space_of blocks.old)) (V.faults (space_of blocks.new))
        (V.copy_faults (space_of blocks.old)) (V.copy_faults (space_of blocks.new)) result }
    ensures steady { IsTrue V.tells_stops → V.Steady (space_of blocks.old)
        → OnOk result (V.Steady (space_of blocks.new)) }
    ensures edited { V.Edited (space_of blocks.old) (space_of blocks.new) }
{
    blocks.apply(plan)
}

/// Does the plan of one link fewer, which was reserved. It takes no memory.
pub fn apply_remove<V: Space>(blocks: &mut Blocks<V>, plan: &EditPlan) -> Result<(), WriteStop>
    requires stands { V.Stands (space_of blocks.old) }
    requires reserved { (met : List Block) × Keeps V.view blocks.old met × FitsCatalogue met plan.now
        × IsReserved (V.view (space_of blocks.old)) (spare_of blocks.old) (length met) plan.now }
    ensures removes { IsTrue V.tells → OnOk result (RemovesNow V.view blocks.old blocks.new plan.now) }
    ensures applies { Applies V.view V.tells blocks.old blocks.new plan.now result }
    ensures stands { OnOk result (V.Stands (space_of blocks.new)) }
    ensures cause { HasCauses (V.faults (space_of blocks.old)) (V.faults (space_of blocks.new))
        (V.copy_faults (space_of blocks.old)) (V.copy_faults (space_of blocks.new)) result }
    ensures steady { IsTrue V.tells_stops → V.Steady (space_of blocks.old)
        → OnOk result (V.Steady (space_of blocks.new)) }
    ensures edited { V.Edited (space_of blocks.old) (space_of blocks.new) }
{
    blocks.apply(plan)
}
