ghost use Rattle.std.specs.Prelude.{◌≡◌, ◌<◌, ◌+◌, ◌^◌, IfOk, length};
ghost use Rattle.block_space.specs.Blocks.{space_of};
ghost use Rattle.block_space.specs.Plans.{needed};
ghost use Rattle.group_edit.specs.Grown.{AreLeavesFor, IsGrown, kept_rows};
ghost use Rattle.h5_base.specs.declared.extent.MemClass.TheVariants as class;
ghost use Rattle.group_facts.specs.Rows.{top_row};

use block_space::{Blocks, Needs};
use group_layout::{IndexRows, Row, widen};
use group_rows::GroupAt;
use h5_base::{List, MemClass, NoMemory};
use node_codec::{group_node_size, snod_size};
use outside::Space;
use plan_pieces::with_block;
use std::alloc::Global;

/// The nodes of an index that are there.
#[derive(Drop)]
pub(crate) struct Nodes {
    /// Symbol table nodes.
    pub(crate) leaves: List<u64>,
    /// The nodes of each level of the B-tree below the root, the lowest first.
    pub(crate) rows: Vec<List<u64>>,
}

/// The symbol table nodes, and what is ahead of the nodes that are taken above them.
#[derive(Drop)]
struct Leaves {
    row: Row,
    behind: Needs,
}

/// How many nodes stand right below the root.
fn top_len(leaves: &List<u64>, rows: &[List<u64>]) -> usize
    ensures { result ≡ length (top_row leaves.now rows.now) }
{
    match rows.last() {
        Some(row) => row.len(),
        None => leaves.len(),
    }
}

/// The rows that are kept: none where the root has no entry.
fn keep_rows(leaves: &List<u64>, rows: Vec<List<u64>>) -> Vec<List<u64>>
    ensures { result.items ≡ kept_rows leaves.now rows.items }
{
    let mut rows = rows;
    if top_len(leaves, &rows) == 0 {
        rows.clear();
    }
    rows
}

/// Symbol table nodes with room for so many entries: one more where those that are there have none.
fn grow_leaves<V: Space>(
    alloc: Global,
    blocks: &Blocks<V>,
    k: u16,
    ahead: &Needs,
    count: usize,
    leaves: List<u64>,
) -> Result<Leaves, NoMemory>
    requires bytes { needed ahead.now class.Tree < 2 ^ 63 }
    requires blocks { ahead.now.blocks + 1 < 2 ^ 32 }
    ensures { IfOk result (λ l. AreLeavesFor (V.view (space_of blocks.now)) k ahead.now count leaves l.row l.behind) }
{
    if count <= (2 * k as usize).saturating_mul(leaves.len()) {
        let new = List::from_vec(Vec::new(alloc));
        return Ok(Leaves {
            row: Row { old: leaves, new },
            behind: *ahead,
        });
    }
    let at = blocks.next(MemClass::Tree, ahead);
    let Ok(new) = Vec::from_slice(alloc, &[at]) else {
        return Err(NoMemory);
    };
    let new = List::from_vec(new);
    Ok(Leaves {
        row: Row { old: leaves, new },
        behind: with_block(ahead, MemClass::Tree, snod_size(k) as u64),
    })
}

/// The nodes of a group's index with those that so many entries take, which lie behind what is ahead.
pub(crate) fn grow<V: Space>(
    alloc: Global,
    blocks: &Blocks<V>,
    group: &GroupAt,
    ahead: &Needs,
    count: usize,
    nodes: Nodes,
) -> Result<IndexRows, NoMemory>
    requires bytes { needed ahead.now class.Tree < 2 ^ 63 }
    requires blocks { ahead.now.blocks + 1 < 2 ^ 32 }
    ensures { IfOk result (IsGrown (V.view (space_of blocks.now)) group.now.ks ahead.now count nodes.leaves
        nodes.rows.items group.now.tree_at) }
{
    let Nodes { leaves, rows } = nodes;
    let kept = keep_rows(&leaves, rows);
    let grown = grow_leaves(alloc, blocks, group.ks.leaf, ahead, count, leaves)?;
    let room = 2 * group.ks.internal as usize;
    let below = grown.row.old.len() + grown.row.new.len();
    let at = blocks.next(MemClass::Tree, &grown.behind);
    let step = group_node_size(group.ks.internal) as u64;
    let rows = List::from_vec(widen(alloc, room, below, kept, at, step)?);
    Ok(IndexRows {
        leaves: grown.row,
        rows,
        tree: group.tree_at,
    })
}
