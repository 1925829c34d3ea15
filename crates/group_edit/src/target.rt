ghost use Rattle.std.specs.Prelude.{◌≡◌};
ghost use Rattle.group_edit.specs.Links.{entry_to};

use group_rows::GroupAt;
use node_codec::SnodEntry;

/// What a new link leads to: the header of an object, and the table of a group where it is one.
#[derive(Clone, Copy, Debug, PartialEq, Eq)]
pub struct NewTarget {
    /// The address of the object's header.
    pub header_at: u64,
    /// The object's table, where it is a group.
    pub group: Option<GroupAt>,
}

/// The entry of a new link whose name stands at an offset of the heap (HDF5 File Format Specification 3.0, III.C): of
/// a group the addresses of its table are cached, of another object nothing is.
pub fn entry_to(name_at: u64, target: &NewTarget) -> SnodEntry
    ensures { result ≡ entry_to name_at target.now }
{
    match target.group {
        Some(group) => SnodEntry {
            name_at,
            header_at: target.header_at,
            cache: 1,
            tree_at: group.tree_at,
            heap_at: group.heap_at,
        },
        None => SnodEntry {
            name_at,
            header_at: target.header_at,
            cache: 0,
            tree_at: 0,
            heap_at: 0,
        },
    }
}
