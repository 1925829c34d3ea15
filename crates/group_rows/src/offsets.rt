ghost use Rattle.std.specs.Prelude.{◌≡◌, ◌≤◌, ◌++◌, List, ℕ};
ghost use Rattle.std.specs.List.{flat_map};
ghost use Rattle.file_model.specs.Groups.{entry_offsets, key_offsets};
ghost use Rattle.group_heap.specs.Greatest.{IsGreatest};

use node_codec::{GroupNode, SnodEntry};

/// The greater of two offsets, each of which is the greatest of some.
pub(crate) fn greater(a: Option<u64>, b: Option<u64>) -> Option<u64>
    ensures { (os ps : List ℕ) → IsGreatest os a → IsGreatest ps b → IsGreatest (os ++ ps) result }
{
    match (a, b) {
        (Some(x), Some(y)) => Some(x.max(y)),
        (Some(x), None) => Some(x),
        (None, y) => y,
    }
}

/// The greatest of offsets.
fn greatest_of(offsets: &[u64]) -> Option<u64>
    ensures { IsGreatest offsets.now result }
{
    offsets.iter().copied().max()
}

/// The greatest offset of a key beside a child of a node.
pub(crate) fn greatest_key(node: &GroupNode) -> Option<u64>
    ensures { IsGreatest (key_offsets node.now) result }
{
    if node.children.len() == 0 {
        None
    } else {
        greatest_of(node.keys.as_slice())
    }
}

/// The greater offset of an entry's name and of a soft link's value.
fn greatest_in(entry: &SnodEntry) -> Option<u64>
    ensures { IsGreatest (entry_offsets entry.now) result }
{
    if entry.cache == 2 {
        Some(entry.name_at.max(entry.soft_value_at() as u64))
    } else {
        Some(entry.name_at)
    }
}

/// The greatest offset in a local heap of names and soft links' values of entries (HDF5 File Format Specification 3.0,
/// III.C).
pub fn greatest(entries: &[SnodEntry]) -> Option<u64>
    ensures { IsGreatest (flat_map entry_offsets entries.now) result }
{
    let mut last = None;
    for entry in entries {
        last = greater(last, greatest_in(entry));
    }
    last
}
