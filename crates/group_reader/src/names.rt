ghost use Rattle.std.specs.Prelude.{◌≡◌, ◌≤◌, ◌++◌, ◌↔◌, IsTrue, length};
ghost use Rattle.object_model.specs.Tree.{Name, name_lt, AreOrdered};
ghost use Rattle.file_model.specs.Groups.{HasText, AreBetween};
ghost use Rattle.file_model.specs.RefusedGroups.{names_of};
ghost use Rattle.group_reader.specs.Links.{links_of};

use crate::link::FoundLink;
use crate::text::text_before;

/// Whether the one name comes before the other, by unsigned bytes.
pub(crate) fn comes_before(a: &[u8], b: &[u8]) -> bool
    ensures { result ≡ name_lt a.now b.now }
{
    a.cmp(&b).is_lt()
}

/// Whether the names, which ascend, lie above the text at the one offset, and at most at the text at the other.
pub(crate) fn lie_between(segment: &[u8], low_at: u64, high_at: u64, links: &[FoundLink]) -> bool
    requires low { low_at ≤ length segment.now }
    requires high { high_at ≤ length segment.now }
    ensures { (low high : Name) → HasText segment.now low_at low → HasText segment.now high_at high
        → AreOrdered (names_of (links_of links.now))
        → IsTrue result ↔ AreBetween low high (links_of links.now) }
{
    match (links.first(), links.last()) {
        (Some(first), Some(last)) => {
            text_before(segment, low_at, first.name.as_slice())
                && !text_before(segment, high_at, last.name.as_slice())
        }
        _ => true,
    }
}

/// Whether the names of both, each of which ascend, ascend one after the other.
pub(crate) fn ascend(before: &[FoundLink], after: &[FoundLink]) -> bool
    ensures { AreOrdered (names_of (links_of before.now)) → AreOrdered (names_of (links_of after.now))
        → IsTrue result ↔ AreOrdered (names_of (links_of before.now ++ links_of after.now)) }
{
    match (before.last(), after.first()) {
        (Some(last), Some(first)) => comes_before(last.name.as_slice(), first.name.as_slice()),
        _ => true,
    }
}
