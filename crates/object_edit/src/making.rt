ghost use Rattle.std.specs.Prelude.{IfErr, IfOk, IsTrue, List};
ghost use Rattle.outside.specs.Blocks.{Block};
ghost use Rattle.block_space.specs.Blocks.{Keeps, space_of};
ghost use Rattle.block_space.specs.Plans.{FitsCatalogue};
ghost use Rattle.file_model.specs.Groups.{Found};
ghost use Rattle.group_room.specs.Index.{AreSmall};
ghost use Rattle.group_rows.specs.Gathering.{IsMalformed, Reads};
ghost use Rattle.group_rows.specs.Reading.{IsHeld};
ghost use Rattle.group_edit.specs.Links.{HasName, HoldsGroup, IsNewName};
ghost use Rattle.object_edit.specs.Making.{MakesGroup};

use crate::joining::join_plans;
use block_space::{Blocks, EditPlan, PlanStop};
use group_edit::{GroupAt, NewLink, NewTarget, plan_insert};
use h5_base::NoMemory;
use new_group::{NewGroup, plan_group};
use outside::Space;
use plan_pieces::no_needs;
use std::alloc::Global;

/// A new group that isn't made yet, and the link to it.
#[derive(Debug, Drop)]
pub struct GroupPlan {
    /// It takes the group's blocks, then what its name takes, and writes within the parent's blocks.
    pub plan: EditPlan,
    /// Where the group stands once the plan is done.
    pub at: GroupAt,
}

/// The plan of a new group without links and of the link to it, in a group whose blocks are in the catalogue (HDF5 File
/// Format Specification 3.0, III.A.1, III.B to III.D, IV.A.2.r): one plan, so that both are made or neither. The name,
/// of 1 to 255 bytes without a NUL, isn't among the group's links. Nothing is written by it.
///
/// Where the space doesn't tell its bytes, they may be others than when the catalogue was made: `Malformed` comes where
/// the group isn't read again, a block of it isn't in the catalogue, its nodes have no room, or the entry at the name's
/// place has that name already.
pub fn plan_mkgroup<V: Space>(
    alloc: Global,
    blocks: &mut Blocks<V>,
    group: &GroupAt,
    name: &[u8],
) -> Result<GroupPlan, PlanStop>
    requires stands { V.Stands (space_of blocks.old) }
    requires ks { AreSmall group.now.ks }
    requires listed { (met : List Block) × Keeps V.view blocks.old met }
    requires held { IsTrue V.tells → IsHeld V.view blocks.old group.now }
    requires name { IsNewName name.now }
    requires lacks { IsTrue V.tells → (fs : List Found) (bs : List Block)
        → HoldsGroup (V.view (space_of blocks.old)).array group.now fs bs → HasName fs name.now → ⊥ }
    ensures makes { IsTrue V.tells
        → IfOk result (MakesGroup (V.view (space_of blocks.old)) group.now name.now) }
    ensures fits { IfOk result
        (λ new. (met : List Block) → Keeps V.view blocks.old met → FitsCatalogue met new.plan) }
    ensures whole { IsTrue V.tells → IfErr result (λ stop. ¬ IsMalformed stop) }
    ensures reads { Reads V.view V.Alike V.faults blocks.old blocks.new result }
{
    let Ok(new) = plan_group(alloc, blocks, group.ks, no_needs()) else {
        return Err(PlanStop::NoMemory);
    };
    let NewGroup { plan, at, ahead } = new;
    let target = NewTarget {
        header_at: at.header_at,
        group: Some(at),
    };
    let link = plan_insert(alloc, blocks, group, NewLink { name, target }, &ahead)?;
    match join_plans(alloc, plan, link) {
        Ok(plan) => Ok(GroupPlan { plan, at }),
        Err(NoMemory) => Err(PlanStop::NoMemory),
    }
}
