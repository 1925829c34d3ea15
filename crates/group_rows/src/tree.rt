ghost use Rattle.std.specs.Prelude.{◌≡◌, ◌+◌, ◌<◌, ◌≤◌, ◌∷◌, [], suc, IsTrue, IfOk, IfErr, OnOk, length};
ghost use Rattle.std.specs.List.{sum_by};
ghost use Rattle.block_space.specs.Blocks.{array_of, space_of};
ghost use Rattle.group_rows.specs.Rows.{node_at, row_children, row_down, rows_down, nodes_down, AreRows};
ghost use Rattle.group_rows.specs.Gathering.{IsMalformed, Reads, AddsNodes};

use crate::gathered::{Gathered, keep};
use crate::row::{read_node, read_row};
use block_space::{Blocks, PlanStop};
use h5_base::List;
use outside::Space;
use std::alloc::Global;

/// The addresses of the nodes below a root.
#[derive(Debug, Drop)]
pub(crate) struct Rows {
    /// Of the symbol table nodes.
    pub(crate) leaves: List<u64>,
    /// Of the nodes of each level below the root, the lowest first.
    pub(crate) rows: Vec<List<u64>>,
}

/// Reads the nodes of a group's B-tree (III.A.1), row by row from the root down.
pub(crate) fn read_tree<V: Space>(
    alloc: Global,
    blocks: &mut Blocks<V>,
    k: u16,
    tree_at: u64,
    gathered: &mut Gathered,
) -> Result<Rows, PlanStop>
    requires stands { V.Stands (space_of blocks.old) }
    ensures leaves { IsTrue V.tells → let b = array_of V.view blocks.old in
        IfOk result (λ tree. tree.leaves ≡ row_down b k (suc (node_at b k tree_at).level) (tree_at ∷ [])) }
    ensures rows { IsTrue V.tells → let b = array_of V.view blocks.old in IfOk result (λ tree. tree.rows.items
        ≡ rows_down b k (node_at b k tree_at).level (row_children b k (tree_at ∷ []))) }
    ensures adds { IsTrue V.tells → let b = array_of V.view blocks.old in OnOk result (AddsNodes b k
        (nodes_down b k (suc (node_at b k tree_at).level) (tree_at ∷ [])) gathered.old gathered.new) }
    ensures left { IfOk result (λ tree. length tree.leaves + sum_by length tree.rows.items + gathered.new.left
        ≡ gathered.old.left) }
    ensures few { IfOk result (λ tree. length tree.rows.items < 256) }
    ensures whole { IsTrue V.tells → let b = array_of V.view blocks.old in
        let height = suc (node_at b k tree_at).level in AreRows b k height (tree_at ∷ [])
        → length (row_children b k (nodes_down b k height (tree_at ∷ []))) ≤ gathered.old.left
        → IfErr result (λ stop. ¬ IsMalformed stop) }
    ensures reads { Reads V.view V.Alike V.faults blocks.old blocks.new result }
{
    let root = read_node(alloc, blocks, k, tree_at, gathered)?;
    let mut level = root.level;
    let mut row = root.children;
    let mut rows = Vec::new(alloc);
    while level > 0 {
        level -= 1;
        let below = read_row(alloc, blocks, k, level, row.as_slice(), gathered)?;
        keep(&mut rows, row)?;
        row = below;
    }
    rows.reverse();
    Ok(Rows { leaves: row, rows })
}
