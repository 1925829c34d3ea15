ghost use Rattle.std.specs.Prelude.{[], ◌∷◌, ◌<◌, ◌^◌, ◌≡◌, List, map};
ghost use Rattle.std.specs.List.{flat_map};
ghost use Rattle.outside.specs.Blocks.{placed};
ghost use Rattle.file_model.specs.Groups.{leaf_block, node_block};
ghost use Rattle.group_edit.specs.Checked.{AreAmong, Checks, heap_blocks, read_blocks};
ghost use Rattle.group_edit.specs.Links.{HoldsGroup};
ghost use Rattle.block_space.specs.Blocks.{Keeps, array_of, space_of};
ghost use Rattle.group_room.specs.Index.{AreSmall};
ghost use Rattle.group_rows.specs.Gathering.{IsMalformed, Reads};
ghost use Rattle.group_rows.specs.Reading.{IsHeld, IsReadOf, IsSmallRead};
ghost use Rattle.outside.specs.Blocks.{Block};
ghost use Rattle.file_model.specs.Groups.{Found};
ghost use Rattle.std.specs.Prelude.{IsTrue, IfErr, IfOk};
ghost use Rattle.group_facts.specs.Rows.{blocks_by_rows};

use block_space::{Blocks, PlanStop};
use group_heap::Heap;
use group_rows::{GroupAt, GroupRead, read_group};
use h5_base::{BlockKind, List};
use node_codec::{group_node_size, snod_size};
use outside::Space;
use std::alloc::Global;

/// Checks that a block is in the catalogue.
fn check_block<V: Space>(
    blocks: &mut Blocks<V>,
    at: u64,
    len: u64,
    kind: BlockKind,
) -> Result<(), PlanStop>
    ensures { Checks V.view blocks.old blocks.new (record { start = at; len = len } ∷ []) result }
{
    match blocks.holds(at, len) {
        Ok(true) => Ok(()),
        Ok(false) => Err(PlanStop::Malformed { at, kind }),
        Err(_) => Err(PlanStop::NoMemory),
    }
}

/// Checks the blocks of this length at these addresses.
fn check_row<V: Space>(
    blocks: &mut Blocks<V>,
    ats: &[u64],
    len: u64,
    kind: BlockKind,
) -> Result<(), PlanStop>
    ensures { Checks V.view blocks.old blocks.new (map (λ at. record { start = at; len = len }) ats.now) result }
{
    for at in ats {
        check_block(blocks, *at, len, kind)?;
    }
    Ok(())
}

/// Checks the blocks of rows of B-tree nodes.
fn check_rows<V: Space>(
    blocks: &mut Blocks<V>,
    group: &GroupAt,
    rows: &[List<u64>],
) -> Result<(), PlanStop>
    ensures { Checks V.view blocks.old blocks.new
        (flat_map (λ row. map (node_block group.now.ks) row) rows.now) result }
{
    let len = group_node_size(group.ks.internal) as u64;
    for row in rows {
        check_row(blocks, row.as_slice(), len, BlockKind::Tree)?;
    }
    Ok(())
}

/// Checks a block that may be empty, and then has no place.
fn check_placed<V: Space>(
    blocks: &mut Blocks<V>,
    at: u64,
    len: u64,
    kind: BlockKind,
) -> Result<(), PlanStop>
    ensures { Checks V.view blocks.old blocks.new (placed at len) result }
{
    if len == 0 {
        return Ok(());
    }
    check_block(blocks, at, len, kind)
}

/// Checks the blocks of a heap.
fn check_heap<V: Space>(blocks: &mut Blocks<V>, heap: &Heap) -> Result<(), PlanStop>
    ensures { Checks V.view blocks.old blocks.new (heap_blocks heap.now) result }
{
    check_block(blocks, heap.at, 32, BlockKind::Heap)?;
    check_placed(blocks, heap.head.segment_at, heap.head.len, BlockKind::Heap)
}

/// Checks the blocks of symbol table nodes.
fn check_leaves<V: Space>(
    blocks: &mut Blocks<V>,
    group: &GroupAt,
    leaves: &List<u64>,
) -> Result<(), PlanStop>
    ensures { Checks V.view blocks.old blocks.new (map (leaf_block group.now.ks) leaves.now) result }
{
    let len = snod_size(group.ks.leaf) as u64;
    check_row(blocks, leaves.as_slice(), len, BlockKind::Snod)
}

/// Checks the block of the root.
fn check_root<V: Space>(blocks: &mut Blocks<V>, group: &GroupAt) -> Result<(), PlanStop>
    ensures { Checks V.view blocks.old blocks.new (node_block group.now.ks group.now.tree_at ∷ []) result }
{
    let len = group_node_size(group.ks.internal) as u64;
    check_block(blocks, group.tree_at, len, BlockKind::Tree)
}

/// Checks the blocks of an index.
fn check_nodes<V: Space>(
    blocks: &mut Blocks<V>,
    group: &GroupAt,
    read: &GroupRead,
) -> Result<(), PlanStop>
    ensures { Checks V.view blocks.old blocks.new
        (blocks_by_rows group.now.ks read.now.leaves read.now.rows.items group.now.tree_at) result }
{
    check_leaves(blocks, group, &read.leaves)?;
    check_rows(blocks, group, &read.rows)?;
    check_root(blocks, group)
}

/// Checks that all blocks that were read of a group are in the catalogue: where the space doesn't tell its bytes, they
/// may be others than when the catalogue was made.
pub(crate) fn check_read<V: Space>(
    blocks: &mut Blocks<V>,
    group: &GroupAt,
    read: &GroupRead,
) -> Result<(), PlanStop>
    ensures { Checks V.view blocks.old blocks.new (read_blocks group.now read.now) result }
{
    check_heap(blocks, &read.heap)?;
    check_nodes(blocks, group, read)
}

/// An address is a number of 64 bits. It does nothing: its clause is the law.
pub(crate) fn is_address(at: u64)
    ensures { at < 2 ^ 64 }
{}

/// Reads a group again, whose blocks are in the catalogue: whatever the space tells, those that were read are.
pub(crate) fn read_listed<V: Space>(
    alloc: Global,
    blocks: &mut Blocks<V>,
    group: &GroupAt,
) -> Result<GroupRead, PlanStop>
    requires stands { V.Stands (space_of blocks.old) }
    requires ks { AreSmall group.now.ks }
    requires listed { (met : List Block) × Keeps V.view blocks.old met }
    requires held { IsTrue V.tells → IsHeld V.view blocks.old group.now }
    ensures found { IsTrue V.tells → (fs : List Found) (bs : List Block)
        (h : HoldsGroup (array_of V.view blocks.old) group.now fs bs)
        → IfOk result (IsReadOf (array_of V.view blocks.old) group.now h.head h.index) }
    ensures small { IfOk result IsSmallRead }
    ensures among { IfOk result (λ read. (met : List Block) → Keeps V.view blocks.old met
        → AreAmong (read_blocks group.now read) met) }
    ensures whole { IsTrue V.tells → IfErr result (λ stop. ¬ IsMalformed stop) }
    ensures reads { Reads V.view V.Alike V.faults blocks.old blocks.new result }
{
    let read = read_group(alloc, blocks, group)?;
    check_read(blocks, group, &read)?;
    Ok(read)
}
