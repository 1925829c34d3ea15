ghost use Rattle.std.specs.Prelude.{◌≡◌, List, IsTrue, IfOk, IfErr, IsErrOf};
ghost use Rattle.outside.specs.Blocks.{Block};
ghost use Rattle.outside.specs.Causes.{OneRose};
ghost use Rattle.block_space.specs.Blocks.{Keeps, array_of, space_of};
ghost use Rattle.file_model.specs.Groups.{Found, HasLinks};
ghost use Rattle.group_rows.specs.Gathering.{IsMalformed};
ghost use Rattle.group_room.specs.Index.{AreSmall};
ghost use Rattle.group_rows.specs.Reading.{IsHeld, IsReadOf, IsSmallRead};

use crate::gathered::Gathered;
use crate::group::{GroupAt, GroupRead};
use crate::heap::read_whole_heap;
use crate::leaf::read_leaves;
use crate::tree::read_tree;
use block_space::{Blocks, PlanStop};
use outside::Space;
use std::alloc::Global;

/// Reads a group again, whose blocks are in the catalogue already, each block once: its local heap, the nodes of its
/// B-tree row by row from the root down, and the symbol table nodes (HDF5 File Format Specification 3.0, III.A.1, III.B
/// to III.D). The root may have any level, and any node may be empty.
///
/// Where the space doesn't tell its bytes, they may be others than when the catalogue was made: `Malformed` comes where
/// a block's addresses pass 2^64 or its bytes don't spell its kind or level, where the heap's segment has more than
/// 16,777,216 bytes, and where the nodes name more than 1,048,576 below them.
pub fn read_group<V: Space>(
    alloc: Global,
    blocks: &mut Blocks<V>,
    group: &GroupAt,
) -> Result<GroupRead, PlanStop>
    requires stands { V.Stands (space_of blocks.old) }
    requires ks { AreSmall group.now.ks }
    requires listed { (met : List Block) × Keeps V.view blocks.old met }
    requires held { IsTrue V.tells → IsHeld V.view blocks.old group.now }
    ensures found { IsTrue V.tells → (fs : List Found) (bs : List Block)
        (h : HasLinks (array_of V.view blocks.old) group.now.ks group.now.tree_at group.now.heap_at fs bs)
        → IfOk result (IsReadOf (array_of V.view blocks.old) group.now h.head h.index) }
    ensures small { IfOk result IsSmallRead }
    ensures whole { IsTrue V.tells → IfErr result (λ stop. ¬ IsMalformed stop) }
    ensures kept { (met : List Block) → Keeps V.view blocks.old met → Keeps V.view blocks.new met }
    ensures alike { V.Alike (space_of blocks.old) (space_of blocks.new) }
    ensures failed { IsErrOf result PlanStop.Failed
        → OneRose (V.faults (space_of blocks.old)) (V.faults (space_of blocks.new)) }
    ensures calm { ¬ IsErrOf result PlanStop.Failed
        → V.faults (space_of blocks.new) ≡ V.faults (space_of blocks.old) }
{
    let mut gathered = Gathered::new(alloc);
    let heap = read_whole_heap(alloc, blocks, group.heap_at, &mut gathered)?;
    let tree = read_tree(
        alloc,
        blocks,
        group.ks.internal,
        group.tree_at,
        &mut gathered,
    )?;
    let leaves = tree.leaves.as_slice();
    let entries = read_leaves(alloc, blocks, group.ks.leaf, leaves, &mut gathered)?;
    Ok(GroupRead {
        heap,
        entries,
        leaves: tree.leaves,
        rows: tree.rows,
        last: gathered.last,
        blocks: gathered.images,
    })
}
