ghost use Rattle.std.specs.Prelude.{◌≡◌, [], ◌∷◌, IfOk};
ghost use Rattle.group_layout.specs.Laying.{ats_of};

use h5_base::{List, NoMemory};
use plan_pieces::{Image, NewBlock};
use std::alloc::Global;

/// A level of a group's index from left to right: the addresses of nodes that are there, and behind them of those that
/// are taken.
#[derive(Debug, Drop)]
pub struct Row {
    pub old: List<u64>,
    pub new: List<u64>,
}

/// The nodes over which links are laid.
#[derive(Debug, Drop)]
pub struct IndexRows {
    /// Symbol table nodes.
    pub leaves: Row,
    /// Rows of B-tree nodes above them, the lowest first.
    pub rows: List<Row>,
    /// The root, above all rows.
    pub tree: u64,
}

/// All blocks of an index that is laid out.
#[derive(Debug, Drop)]
pub struct Laid {
    /// Those of nodes that are there.
    pub writes: Vec<Image>,
    /// Those that are taken.
    pub fills: Vec<NewBlock>,
}

/// All nodes of a level.
pub fn joined(alloc: Global, row: &Row) -> Result<Vec<u64>, NoMemory>
    ensures { IfOk result (λ v. v.items ≡ ats_of row.now) }
{
    let Ok(mut ats) = Vec::from_slice(alloc, row.old.as_slice()) else {
        return Err(NoMemory);
    };
    let Ok(()) = ats.extend_from_slice(row.new.as_slice()) else {
        return Err(NoMemory);
    };
    Ok(ats)
}

/// The root alone.
pub fn root_row(alloc: Global, tree: u64) -> Result<Row, NoMemory>
    ensures { IfOk result (λ r. r ≡ record { old = tree ∷ []; new = [] }) }
{
    let Ok(old) = Vec::from_slice(alloc, &[tree]) else {
        return Err(NoMemory);
    };
    Ok(Row {
        old: List::from_vec(old),
        new: List::from_vec(Vec::new(alloc)),
    })
}
