ghost use Rattle.std.specs.Prelude.{◌≡◌, ◌≢◌, ◌+◌, ◌<◌, ◌≤◌, ◌^◌, List, IfErr, IfOk, IsErrOf, IsTrue, length};
ghost use Rattle.std.specs.Prelude.{insert, map, slice_index};
ghost use Rattle.outside.specs.Blocks.{Block};
ghost use Rattle.block_space.specs.Blocks.{Keeps, space_of};
ghost use Rattle.block_space.specs.Plans.{FitsCatalogue, all_needed};
ghost use Rattle.object_model.specs.Tree.{AreOrdered};
ghost use Rattle.file_model.specs.Groups.{AreLinks, Found};
ghost use Rattle.group_room.specs.Index.{AreSmall};
ghost use Rattle.group_rows.specs.Gathering.{IsMalformed, Reads};
ghost use Rattle.group_rows.specs.Reading.{IsHeld, IsSmallRead};
ghost use Rattle.plan_pieces.specs.Plan.{NeedsSmall};
ghost use Rattle.group_edit.specs.Edited.{Inserts, StaysWithin, TakesLink};
ghost use Rattle.group_edit.specs.Inserting.{IsBehind, IsFreePlace, IsInsertDraft, MaybeShort};
ghost use Rattle.group_edit.specs.Links.{HasName, HoldsGroup, IsNewName};

use crate::checking::{is_address, read_listed};
use crate::draft::{Draft, Drafted, draft_plan};
use crate::growing::{Nodes, grow};
use crate::target::{NewTarget, entry_to};
use block_space::{Blocks, EditPlan, Needs, PlanStop};
use entry_list::{is_named, place_of};
use group_heap::{put_name, used_len};
use group_rows::{GroupAt, GroupRead};
use h5_base::{BlockKind, MemClass, NoMemory};
use node_codec::SnodEntry;
use outside::Space;
use plan_pieces::{NewBlock, with_block};
use std::alloc::Global;

/// A link that is put into a group: its name, of 1 to 255 bytes without a NUL, and the object that it leads to.
#[derive(Clone, Copy, Debug)]
pub struct NewLink<'a> {
    pub name: &'a [u8],
    pub target: NewTarget,
}

/// A link that is put into a group, and its place among the entries.
struct PlacedLink<'a> {
    link: NewLink<'a>,
    place: usize,
}

/// What is ahead of the nodes: a new segment too, where there is one.
fn with_segment(ahead: &Needs, segment: &Option<NewBlock>) -> Needs
    requires ahead { NeedsSmall ahead.now }
    requires segment { MaybeShort segment.now }
    ensures { IsBehind ahead.now segment.now result }
{
    match segment {
        Some(new) => with_block(ahead, new.class, new.image.bytes.len() as u64),
        None => *ahead,
    }
}

/// An offset at which the empty name is to stand: 0 where it does, or where there are no bytes yet, else the NUL of a
/// name that is put at `used`.
fn base_with(segment: &[u8], used: u64, name: &[u8]) -> u64
    requires { used + length name.now < 2 ^ 64 }
    ensures zero { slice_index segment.now 0 ≡ 0 → result ≡ 0 }
    ensures other { slice_index segment.now 0 ≢ 0 → result ≡ used + length name.now }
{
    if segment.is_empty() || segment[0] == 0 {
        0
    } else {
        used + name.len() as u64
    }
}

/// The place of a name that is to be put in. `Malformed` comes where the entry that is there has it already.
fn free_place(group: &GroupAt, read: &GroupRead, name: &[u8]) -> Result<usize, PlanStop>
    ensures free { IfOk result (IsFreePlace read.now.heap.segment.items read.now.entries.items name.now) }
    ensures whole { (fs : List Found) → AreLinks read.now.heap.segment.items read.now.entries.items fs
        → AreOrdered (map (λ f. f.name) fs) → (HasName fs name.now → ⊥) → IfErr result (λ stop. ¬ IsMalformed stop) }
    ensures calm { ¬ IsErrOf result PlanStop.Failed }
{
    let place = place_of(&read.heap.segment, &read.entries, name);
    if is_named(&read.heap.segment, &read.entries, place, name) {
        return Err(PlanStop::Malformed {
            at: group.tree_at,
            kind: BlockKind::Tree,
        });
    }
    Ok(place)
}

/// The entries with one more, at a place.
fn with_entry(
    entries: Vec<SnodEntry>,
    place: usize,
    entry: SnodEntry,
) -> Result<Vec<SnodEntry>, NoMemory>
    requires { place ≤ length entries.items }
    ensures { IfOk result (λ v. v.items ≡ insert entries.items place entry) }
{
    let mut entries = entries;
    match entries.insert(place, entry) {
        Ok(()) => Ok(entries),
        Err(_) => Err(NoMemory),
    }
}

/// What a group that was read is to be with one link more.
fn draft_link<V: Space>(
    alloc: Global,
    blocks: &Blocks<V>,
    group: &GroupAt,
    read: GroupRead,
    placed: PlacedLink,
    ahead: &Needs,
) -> Result<Drafted, NoMemory>
    requires name { IsNewName placed.link.name.now }
    requires free { IsFreePlace read.heap.segment.items read.entries.items placed.link.name.now placed.place }
    requires ahead { NeedsSmall ahead.now }
    requires small { IsSmallRead read }
    requires within { read.heap.head.segment_at + read.heap.head.len < 2 ^ 64 }
    ensures draft { IfOk result (λ d. IsInsertDraft (V.view (space_of blocks.now)) group.now ahead.now
        placed.entry.link.name.now placed.entry.link.target read d.draft) }
    ensures old { IfOk result (λ d. d.old.items ≡ read.blocks.items) }
{
    let PlacedLink { link, place } = placed;
    let GroupRead {
        heap,
        entries,
        leaves,
        rows,
        last,
        blocks: old,
    } = read;
    let used = used_len(&heap.segment, last);
    let segment_at = blocks.next(MemClass::LocalHeap, ahead);
    let edit = put_name(alloc, &heap, used, link.name, segment_at)?;
    let behind = with_segment(ahead, &edit.segment);
    let base = base_with(&heap.segment, used, link.name);
    let entry = entry_to(used, &link.target);
    let entries = with_entry(entries, place, entry)?;
    let nodes = Nodes { leaves, rows };
    let index = grow(alloc, blocks, group, &behind, entries.len(), nodes)?;
    let draft = Draft {
        heap: edit,
        base,
        entries,
        index,
    };
    Ok(Drafted { draft, old })
}

/// The plan of one link more in a group whose blocks are in the catalogue, behind what the same step takes before
/// (`ahead`), such as the object that the link leads to (HDF5 File Format Specification 3.0, III.A.1, III.B to III.D).
/// The name isn't among the group's links. Nothing is written by it.
///
/// Where the space doesn't tell its bytes, they may be others than when the catalogue was made: `Malformed` comes where
/// the group isn't read again, a block of it isn't in the catalogue, its nodes have no room, or the entry at the name's
/// place has that name already.
pub fn plan_insert<V: Space>(
    alloc: Global,
    blocks: &mut Blocks<V>,
    group: &GroupAt,
    link: NewLink,
    ahead: &Needs,
) -> Result<EditPlan, PlanStop>
    requires stands { V.Stands (space_of blocks.old) }
    requires ks { AreSmall group.now.ks }
    requires listed { (met : List Block) × Keeps V.view blocks.old met }
    requires held { IsTrue V.tells → IsHeld V.view blocks.old group.now }
    requires name { IsNewName link.name.now }
    requires lacks { IsTrue V.tells → (fs : List Found) (bs : List Block)
        → HoldsGroup (V.view (space_of blocks.old)).array group.now fs bs → HasName fs link.name.now → ⊥ }
    requires ahead { NeedsSmall ahead.now }
    ensures inserts { IsTrue V.tells → IfOk result
        (Inserts (V.view (space_of blocks.old)) group.now ahead.now link.entry.name.now link.entry.target) }
    ensures takes { IsTrue V.tells
        → IfOk result (TakesLink (V.view (space_of blocks.old)) group.now link.entry.name.now) }
    ensures within { IsTrue V.tells → IfOk result (StaysWithin (V.view (space_of blocks.old)) group.now) }
    ensures fits { IfOk result (λ plan. (met : List Block) → Keeps V.view blocks.old met → FitsCatalogue met plan) }
    ensures small { IfOk result (λ plan. all_needed plan.needs < 2 ^ 63) }
    ensures few { IfOk result (λ plan. plan.needs.blocks ≤ 2 ^ 31) }
    ensures whole { IsTrue V.tells → IfErr result (λ stop. ¬ IsMalformed stop) }
    ensures reads { Reads V.view V.Alike V.faults blocks.old blocks.new result }
{
    let read = read_listed(alloc, blocks, group)?;
    is_address(read.heap.head.segment_at);
    let place = free_place(group, &read, link.name)?;
    let placed = PlacedLink { link, place };
    match draft_link(alloc, blocks, group, read, placed, ahead) {
        Ok(drafted) => draft_plan(alloc, group.ks, drafted),
        Err(NoMemory) => Err(PlanStop::NoMemory),
    }
}
