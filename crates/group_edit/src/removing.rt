ghost use Rattle.std.specs.Prelude.{◌≡◌, ◌+◌, ◌<◌, ◌^◌, List, [], map, IfErr, IfOk, IsErrOf, IsTrue, length};
ghost use Rattle.outside.specs.Blocks.{Block};
ghost use Rattle.block_space.specs.Blocks.{Keeps, space_of};
ghost use Rattle.block_space.specs.Plans.{FitsCatalogue};
ghost use Rattle.object_model.specs.Tree.{AreOrdered};
ghost use Rattle.file_model.specs.Groups.{AreLinks, Found};
ghost use Rattle.group_room.specs.Index.{AreSmall};
ghost use Rattle.group_rows.specs.Gathering.{IsMalformed, Reads};
ghost use Rattle.group_rows.specs.Reading.{IsHeld, IsSmallRead};
ghost use Rattle.group_edit.specs.Edited.{Removes};
ghost use Rattle.group_edit.specs.Links.{HasName, HoldsGroup};
ghost use Rattle.group_edit.specs.Removing.{AreSameNodes, IsRemoveDraft, IsRestDraft};

use crate::checking::{is_address, read_listed};
use crate::draft::{Draft, Drafted, draft_plan};
use block_space::{Blocks, EditPlan, PlanStop};
use entry_list::{is_named, place_of};
use group_heap::{base_of, tell_free, used_len};
use group_layout::{IndexRows, Row, stay};
use group_rows::{GroupAt, GroupRead, greatest};
use h5_base::{BlockKind, List, NoMemory};
use outside::Space;
use std::alloc::Global;

/// The nodes of an index that stay as they are.
fn same_nodes(
    alloc: Global,
    tree: u64,
    leaves: List<u64>,
    rows: Vec<List<u64>>,
) -> Result<IndexRows, NoMemory>
    ensures { IfOk result (AreSameNodes tree leaves rows.items) }
{
    let new = List::from_vec(Vec::new(alloc));
    let rows = stay(alloc, rows)?;
    Ok(IndexRows {
        leaves: Row { old: leaves, new },
        rows: List::from_vec(rows),
        tree,
    })
}

/// What a group that was read is to be without the link at a place.
fn draft_without(
    alloc: Global,
    group: &GroupAt,
    read: GroupRead,
    place: usize,
) -> Result<Drafted, NoMemory>
    requires place { place < length read.entries.items }
    requires small { IsSmallRead read }
    requires within { read.heap.head.segment_at + read.heap.head.len < 2 ^ 64 }
    ensures draft { IfOk result (λ d. IsRestDraft group.now read place d.draft) }
    ensures old { IfOk result (λ d. d.old.items ≡ read.blocks.items) }
{
    let GroupRead {
        heap,
        entries,
        leaves,
        rows,
        last: _,
        blocks: old,
    } = read;
    let mut entries = entries;
    let gone = entries.remove(place);
    let last = greatest(&entries);
    let base = base_of(&heap.segment, last.unwrap_or(gone.name_at));
    let used = used_len(&heap.segment, Some(last.unwrap_or(base).max(base)));
    let heap = tell_free(alloc, &heap, used)?;
    let index = same_nodes(alloc, group.tree_at, leaves, rows)?;
    let draft = Draft {
        heap,
        base,
        entries,
        index,
    };
    Ok(Drafted { draft, old })
}

/// What a group that was read is to be without the link of this name. `Malformed` comes where the entry at its place
/// has another.
fn draft_rest(
    alloc: Global,
    group: &GroupAt,
    read: GroupRead,
    name: &[u8],
) -> Result<Drafted, PlanStop>
    requires small { IsSmallRead read }
    requires within { read.heap.head.segment_at + read.heap.head.len < 2 ^ 64 }
    ensures draft { IfOk result (λ d. IsRemoveDraft group.now name.now read d.draft) }
    ensures old { IfOk result (λ d. d.old.items ≡ read.blocks.items) }
    ensures whole { (fs : List Found) → AreLinks read.heap.segment.items read.entries.items fs
        → AreOrdered (map (λ f. f.name) fs) → HasName fs name.now → IfErr result (λ stop. ¬ IsMalformed stop) }
    ensures calm { ¬ IsErrOf result PlanStop.Failed }
{
    let place = place_of(&read.heap.segment, &read.entries, name);
    if !is_named(&read.heap.segment, &read.entries, place, name) {
        return Err(PlanStop::Malformed {
            at: group.tree_at,
            kind: BlockKind::Tree,
        });
    }
    match draft_without(alloc, group, read, place) {
        Ok(drafted) => Ok(drafted),
        Err(NoMemory) => Err(PlanStop::NoMemory),
    }
}

/// The plan of one link fewer in a group whose blocks are in the catalogue, the one of this name, which is there (HDF5
/// File Format Specification 3.0, III.A.1, III.B to III.D). It takes nothing. Nothing is written by it.
///
/// Where the space doesn't tell its bytes, they may be others than when the catalogue was made: `Malformed` comes where
/// the group isn't read again, a block of it isn't in the catalogue, its nodes have no room, or the entry at the name's
/// place has another name. So of the group as it is read again no other link is taken out.
pub fn plan_remove<V: Space>(
    alloc: Global,
    blocks: &mut Blocks<V>,
    group: &GroupAt,
    name: &[u8],
) -> Result<EditPlan, PlanStop>
    requires stands { V.Stands (space_of blocks.old) }
    requires ks { AreSmall group.now.ks }
    requires listed { (met : List Block) × Keeps V.view blocks.old met }
    requires held { IsTrue V.tells → IsHeld V.view blocks.old group.now }
    requires there { IsTrue V.tells → (fs : List Found) (bs : List Block)
        → HoldsGroup (V.view (space_of blocks.old)).array group.now fs bs → HasName fs name.now }
    ensures removes { IsTrue V.tells
        → IfOk result (Removes (V.view (space_of blocks.old)) group.now name.now) }
    ensures nothing { IfOk result (λ plan. plan.takes ≡ []) }
    ensures fits { IfOk result (λ plan. (met : List Block) → Keeps V.view blocks.old met → FitsCatalogue met plan) }
    ensures whole { IsTrue V.tells → IfErr result (λ stop. ¬ IsMalformed stop) }
    ensures reads { Reads V.view V.Alike V.faults blocks.old blocks.new result }
{
    let read = read_listed(alloc, blocks, group)?;
    is_address(read.heap.head.segment_at);
    let drafted = draft_rest(alloc, group, read, name)?;
    draft_plan(alloc, group.ks, drafted)
}
