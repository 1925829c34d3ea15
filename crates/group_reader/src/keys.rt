ghost use Rattle.std.specs.Prelude.{◌≡◌, ◌≤◌, ◌-◌, IfErr, IfSome, OnOk, IsErrOf, length, take, drop};
ghost use Rattle.object_model.specs.Tree.{AreOrdered};
ghost use Rattle.file_model.specs.RefusedGroups.{names_of, FitKeys, IsKeyRefused};
ghost use Rattle.h5_base.specs.Refusals.{refusal_of};
ghost use Rattle.group_reader.specs.Links.{links_of};

use crate::link::FoundLink;
use crate::names::{ascend, lie_between};
use crate::table::Table;
use h5_base::{BlockKind, Stop};

/// The links from `begin` on, in two parts: those before `middle`, and those from there on.
pub(crate) fn parts_at(
    links: &[FoundLink],
    begin: usize,
    middle: usize,
) -> (&[FoundLink], &[FoundLink])
    requires order { begin ≤ middle }
    requires inside { middle ≤ length links.now }
    ensures done { result.0.now ≡ take (middle - begin) (drop begin links.now) }
    ensures here { result.1.now ≡ drop middle links.now }
{
    (&links[begin..middle], &links[middle..])
}

/// Checks the keys at both sides of a child of the node at `node_at`: that the names of the links `here` under it lie
/// between them, and come after those of the links `done` under the children before it.
pub(crate) fn check_keys(
    table: &Table<'_>,
    node_at: u64,
    low_at: u64,
    high_at: u64,
    done: &[FoundLink],
    here: &[FoundLink],
) -> Result<(), Stop>
    ensures found { AreOrdered (names_of (links_of done.now)) → AreOrdered (names_of (links_of here.now))
        → OnOk result (FitKeys table.now.segment.now low_at high_at (links_of done.now) (links_of here.now)) }
    ensures refused { AreOrdered (names_of (links_of done.now)) → AreOrdered (names_of (links_of here.now))
        → IfErr result (λ stop. IfSome (refusal_of stop)
        (IsKeyRefused table.now.segment.now table.now.heap_at node_at low_at high_at (links_of done.now)
        (links_of here.now))) }
    ensures no_fault { ¬ IsErrOf result Stop.Failed }
{
    let end = table.texts_end as u64;
    if low_at >= end || high_at >= end {
        return Err(Stop::malformed(table.heap_at, BlockKind::Heap));
    }
    if lie_between(table.segment, low_at, high_at, here) && ascend(done, here) {
        Ok(())
    } else {
        Err(Stop::malformed(node_at, BlockKind::Tree))
    }
}
