ghost use Rattle.std.specs.Prelude.{◌≡◌, ◌+◌, ◌-◌, ◌*◌, ◌^◌, ◌<◌, ◌++◌, [], length, map, IfOk, replicate};
ghost use Rattle.std.specs.List.{flat_map};
ghost use Rattle.group_layout.specs.Growth.{IsWider, AreWider};
ghost use Rattle.group_room.specs.Index.{addresses};
ghost use Rattle.group_layout.specs.Laying.{ats_of, unchanged};
ghost use Rattle.group_layout.specs.Placing.{EndsInPair};

use crate::row::Row;
use h5_base::{List, NoMemory};
use std::alloc::Global;

/// So many addresses, each a step behind the one before.
fn taken(alloc: Global, count: usize, at: u64, step: u64) -> Result<Vec<u64>, NoMemory>
    ensures count { IfOk result (λ v. length v.items ≡ count) }
    ensures are { IfOk result (λ v. at + step * count < 2 ^ 64 → v.items ≡ addresses at step count) }
{
    let mut ats = Vec::new(alloc);
    let mut at = at;
    for _i in 0..count {
        let Ok(()) = ats.push(at) else {
            return Err(NoMemory);
        };
        at = at.saturating_add(step);
    }
    Ok(ats)
}

/// The address behind so many, where there is one.
fn behind(at: u64, step: u64, count: usize) -> u64
    ensures { at + step * count < 2 ^ 64 → result ≡ at + step * count }
{
    at.saturating_add(step.saturating_mul(count as u64))
}

/// The row, with a node more where it has no room for so many below it.
fn widened(
    alloc: Global,
    room: usize,
    below: usize,
    old: List<u64>,
    at: u64,
    step: u64,
) -> Result<Row, NoMemory>
    ensures wider { IfOk result (λ r. IsWider room below old (ats_of r)) }
    ensures kept { IfOk result (λ r. r.old ≡ old) }
    ensures news { IfOk result (λ r. at + step * length r.new < 2 ^ 64 → r.new ≡ addresses at step (length r.new)) }
{
    let count = usize::from(room.saturating_mul(old.len()) < below);
    let new = List::from_vec(taken(alloc, count, at, step)?);
    Ok(Row { old, new })
}

/// Rows with one of two nodes above them.
fn with_pair(alloc: Global, rows: Vec<Row>, at: u64, step: u64) -> Result<Vec<Row>, NoMemory>
    ensures { IfOk result (λ w. EndsInPair at step rows.items w.items) }
{
    let mut rows = rows;
    let old = List::from_vec(Vec::new(alloc));
    let new = List::from_vec(taken(alloc, 2, at, step)?);
    let Ok(()) = rows.push(Row { old, new }) else {
        return Err(NoMemory);
    };
    Ok(rows)
}

/// Rows that grow where they have no room: by one node at the right end, and under the root by a row of two. `below`
/// is how many nodes stand below the lowest, and each node has room for `room`. The nodes that are taken stand a step
/// from one another, from `at` on.
pub fn widen(
    alloc: Global,
    room: usize,
    below: usize,
    rows: Vec<List<u64>>,
    at: u64,
    step: u64,
) -> Result<Vec<Row>, NoMemory>
    ensures wider { IfOk result (λ w. AreWider room below rows.items (map ats_of w.items)) }
    // Behind the rows that were there stands at most one more.
    ensures olds { IfOk result (λ w. map (λ r. r.old) w.items
        ≡ rows.items ++ replicate (length w.items - length rows.items) []) }
    ensures news { IfOk result (λ w. let news = flat_map (λ r. r.new) w.items in
        at + step * length news < 2 ^ 64 → news ≡ addresses at step (length news)) }
{
    let mut wider = Vec::new(alloc);
    let mut below = below;
    let mut at = at;
    for old in rows {
        let row = widened(alloc, room, below, old, at, step)?;
        below = row.old.len() + row.new.len();
        at = behind(at, step, row.new.len());
        let Ok(()) = wider.push(row) else {
            return Err(NoMemory);
        };
    }
    if below <= room {
        return Ok(wider);
    }
    with_pair(alloc, wider, at, step)
}

/// Rows that don't grow.
pub fn stay(alloc: Global, rows: Vec<List<u64>>) -> Result<Vec<Row>, NoMemory>
    ensures { IfOk result (λ w. w.items ≡ map unchanged rows.items) }
{
    let mut kept = Vec::new(alloc);
    for old in rows {
        let new = List::from_vec(Vec::new(alloc));
        let Ok(()) = kept.push(Row { old, new }) else {
            return Err(NoMemory);
        };
    }
    Ok(kept)
}
