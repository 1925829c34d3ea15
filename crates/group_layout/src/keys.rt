ghost use Rattle.std.specs.Prelude.{◌≡◌, ◌+◌, ◌-◌, ◌≤◌, min, length, IfOk};
ghost use Rattle.group_layout.specs.Leaves.{last_key, leaf_keys};
ghost use Rattle.group_layout.specs.Rows.{keys_above};

use h5_base::NoMemory;
use node_codec::SnodEntry;
use std::alloc::Global;

/// Where a part of at most `room` items ends, of so many, that begins at `from`.
pub fn part_end(from: usize, room: usize, count: usize) -> usize
    requires { from ≤ count }
    ensures { result ≡ from + min room (count - from) }
{
    from + room.min(count - from)
}

/// Where the last of these names stands, or the one before them where there is none.
fn last_key(before: u64, entries: &[SnodEntry]) -> u64
    ensures { result ≡ last_key before entries.now }
{
    match entries.last() {
        Some(entry) => entry.name_at,
        None => before,
    }
}

/// The key before each symbol table node, which has room for so many of the entries, and the one behind the last.
pub fn leaf_keys(
    alloc: Global,
    room: usize,
    base: u64,
    ats: &[u64],
    entries: &[SnodEntry],
) -> Result<Vec<u64>, NoMemory>
    ensures { IfOk result (λ v. v.items ≡ leaf_keys room base ats.now entries.now) }
{
    let mut keys = Vec::new(alloc);
    let mut key = base;
    let mut from = 0;
    for _at in ats {
        let Ok(()) = keys.push(key) else {
            return Err(NoMemory);
        };
        let to = part_end(from, room, entries.len());
        key = last_key(key, &entries[from..to]);
        from = to;
    }
    let Ok(()) = keys.push(key) else {
        return Err(NoMemory);
    };
    Ok(keys)
}

/// The key before each node of a row, which has room for so many of the row below, and the one behind the last.
pub fn keys_above(
    alloc: Global,
    room: usize,
    ats: &[u64],
    keys: &[u64],
    below: &[u64],
) -> Result<Vec<u64>, NoMemory>
    requires { length keys.now ≡ length below.now + 1 }
    ensures { IfOk result (λ v. v.items ≡ keys_above room ats.now keys.now below.now) }
{
    let mut above = Vec::new(alloc);
    let mut from = 0;
    for _at in ats {
        let Ok(()) = above.push(keys[from]) else {
            return Err(NoMemory);
        };
        from = part_end(from, room, below.len());
    }
    let Ok(()) = above.push(keys[from]) else {
        return Err(NoMemory);
    };
    Ok(above)
}
