ghost use Rattle.std.specs.Prelude.{◌^◌, ◌<◌, ◌≤◌, IfOk};
ghost use Rattle.block_space.specs.Blocks.{space_of};
ghost use Rattle.block_space.specs.Plans.{all_needed};
ghost use Rattle.new_group.specs.Planned.{IsNewGroup};

use crate::blocks::group_fills;
use crate::places::find_places;
use block_space::{Blocks, EditPlan, Needs};
use group_rows::GroupAt;
use h5_base::NoMemory;
use outside::Space;
use plan_pieces::make_plan;
use std::alloc::Global;
use super_codec::KValues;

/// A new empty group that isn't made yet.
#[derive(Debug, Drop)]
pub struct NewGroup {
    /// It takes the group's blocks, and writes nothing else.
    pub plan: EditPlan,
    /// Where the group stands once the plan is done.
    pub at: GroupAt,
    /// What is ahead of whatever the same step takes behind the group.
    pub ahead: Needs,
}

/// The plan of a new group without links (HDF5 File Format Specification 3.0, III.A.1, III.D, IV.A.2.r), behind what
/// the same step takes before: an object header of 40 bytes, the root of a B-tree, which has no entry, the header of a
/// local heap, and its segment of 88 bytes, which has the empty name alone. No link leads to it yet.
pub fn plan_group<V: Space>(
    alloc: Global,
    blocks: &Blocks<V>,
    ks: KValues,
    ahead: Needs,
) -> Result<NewGroup, NoMemory>
    requires stands { V.Stands (space_of blocks.now) }
    requires k { ks.internal ≤ 1024 }
    requires small { all_needed ahead < 2 ^ 63 }
    requires few { ahead.blocks < 2 ^ 31 }
    ensures { IfOk result (λ new. IsNewGroup (V.view (space_of blocks.now)) ks ahead new) }
{
    let mut behind = ahead;
    let at = find_places(blocks, ks, &mut behind);
    let fills = group_fills(alloc, ks.internal, &at)?;
    let plan = make_plan(alloc, Vec::new(alloc), Vec::new(alloc), fills)?;
    Ok(NewGroup {
        plan,
        at: GroupAt {
            header_at: at.header_at,
            tree_at: at.tree_at,
            heap_at: at.heap_at,
            ks,
        },
        ahead: behind,
    })
}
