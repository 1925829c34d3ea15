ghost use Rattle.std.specs.Prelude.{◌≡◌, ◌++◌, ◌∷◌, [], ◌↔◌, ◌<◌, ◌≤◌, ◌^◌, All, IfErr, IfOk, IsErrOf};
ghost use Rattle.std.specs.Prelude.{IsTrue, length, map};
ghost use Rattle.block_space.specs.Plans.{all_needed};
ghost use Rattle.group_edit.specs.Drafts.{HasRoomFor, IsPlanFor, LieBelow, heap_writes, new_fills, segment_fills};
ghost use Rattle.group_layout.specs.Laying.{ats_of};
ghost use Rattle.group_layout.specs.Rows.{HaveRoom};
ghost use Rattle.group_heap.specs.Edits.{part_images};
ghost use Rattle.group_room.specs.Index.{AreSmall};
ghost use Rattle.group_rows.specs.Gathering.{IsMalformed};
ghost use Rattle.node_codec.specs.Snod.{IsCache};
ghost use Rattle.plan_pieces.specs.Plan.{EndsBelow, IsPlanOf, NeedsBelow};

use block_space::{EditPlan, PlanStop};
use group_heap::HeapEdit;
use group_layout::{IndexRows, Laid, Row, lay};
use h5_base::{BlockKind, NoMemory};
use node_codec::SnodEntry;
use plan_pieces::{Image, NewBlock, make_plan};
use std::alloc::Global;
use super_codec::KValues;

/// What a group is to be: its heap, and its entries over the nodes of its index.
#[derive(Drop)]
pub(crate) struct Draft {
    pub(crate) heap: HeapEdit,
    /// An offset of the heap at which the empty name stands: the key before all names.
    pub(crate) base: u64,
    pub(crate) entries: Vec<SnodEntry>,
    pub(crate) index: IndexRows,
}

/// A draft, and the images that stand already.
#[derive(Drop)]
pub(crate) struct Drafted {
    pub(crate) draft: Draft,
    pub(crate) old: Vec<Image>,
}

/// How many nodes a row has.
fn nodes_in(row: &Row) -> u128
    ensures { result ≡ length (ats_of row.now) }
{
    row.old.len() as u128 + row.new.len() as u128
}

/// Whether the rows, with a root above them, have room for so many nodes below them.
fn rows_have_room(room: u128, leaves: u128, rows: &[Row], tree: u64) -> bool
    ensures { IsTrue result ↔ HaveRoom room leaves (map ats_of rows.now ++ (tree ∷ []) ∷ []) }
{
    let mut below = leaves;
    for row in rows {
        let nodes = nodes_in(row);
        if room.saturating_mul(nodes) < below {
            return false;
        }
        below = nodes;
    }
    below <= room
}

/// Whether the nodes have room for so many entries.
fn has_room(ks: KValues, index: &IndexRows, count: usize) -> bool
    ensures { IsTrue result ↔ HasRoomFor ks index.now count }
{
    let leaves = nodes_in(&index.leaves);
    let room = 2 * ks.internal as u128;
    count as u128 <= (2 * ks.leaf as u128).saturating_mul(leaves)
        && index.rows.len() < 256
        && rows_have_room(room, leaves, index.rows.as_slice(), index.tree)
}

/// The images that are written: of the heap's header, of a part of its segment, and of nodes.
fn join_writes(
    alloc: Global,
    header: Image,
    part: Option<Image>,
    nodes: Vec<Image>,
) -> Result<Vec<Image>, NoMemory>
    ensures { IfOk result (λ v. v.items ≡ header ∷ part_images part ++ nodes.items) }
{
    let heap = std::iter::once(header).chain(part);
    match heap.chain(nodes).collect(alloc) {
        Ok(writes) => Ok(writes),
        Err(_) => Err(NoMemory),
    }
}

/// The blocks that are taken: a segment of the heap, and nodes.
fn join_fills(
    alloc: Global,
    segment: Option<NewBlock>,
    nodes: Vec<NewBlock>,
) -> Result<Vec<NewBlock>, NoMemory>
    ensures { IfOk result (λ v. v.items ≡ new_fills segment ++ nodes.items) }
{
    match segment.into_iter().chain(nodes).collect(alloc) {
        Ok(fills) => Ok(fills),
        Err(_) => Err(NoMemory),
    }
}

/// The plan that writes and takes these: the edit of a heap, and the nodes of an index.
fn images_plan(
    alloc: Global,
    old: Vec<Image>,
    heap: HeapEdit,
    laid: Laid,
) -> Result<EditPlan, NoMemory>
    requires ends { All EndsBelow (heap_writes heap ++ laid.writes.items) }
    requires sums { NeedsBelow (segment_fills heap ++ laid.fills.items) }
    requires few { length laid.fills.items < 2 ^ 31 }
    ensures { IfOk result
        (IsPlanOf old.items (heap_writes heap ++ laid.writes.items) (segment_fills heap ++ laid.fills.items)) }
{
    let HeapEdit {
        header,
        part,
        segment,
    } = heap;
    let Laid { writes, fills } = laid;
    let writes = join_writes(alloc, header, part, writes)?;
    let fills = join_fills(alloc, segment, fills)?;
    make_plan(alloc, old, writes, fills)
}

/// The plan of a draft whose nodes have room for its entries.
fn spelled_plan(
    alloc: Global,
    ks: KValues,
    draft: Draft,
    old: Vec<Image>,
) -> Result<EditPlan, NoMemory>
    requires ks { AreSmall ks }
    requires caches { All IsCache draft.entries.items }
    requires below { LieBelow ks draft }
    requires room { HasRoomFor ks draft.index (length draft.entries.items) }
    ensures plan { IfOk result (IsPlanFor ks old.items draft) }
    ensures small { IfOk result (λ plan. all_needed plan.needs < 2 ^ 63) }
    ensures few { IfOk result (λ plan. plan.needs.blocks ≤ 2 ^ 31) }
{
    let laid = lay(alloc, ks, draft.base, &draft.index, &draft.entries)?;
    images_plan(alloc, old, draft.heap, laid)
}

/// The plan of a draft. `Malformed` comes where its nodes have no room for its entries.
pub(crate) fn draft_plan(alloc: Global, ks: KValues, drafted: Drafted) -> Result<EditPlan, PlanStop>
    requires ks { AreSmall ks }
    requires caches { All IsCache drafted.draft.entries.items }
    requires below { LieBelow ks drafted.draft }
    ensures plan { IfOk result (IsPlanFor ks drafted.old.items drafted.draft) }
    ensures small { IfOk result (λ plan. all_needed plan.needs < 2 ^ 63) }
    ensures few { IfOk result (λ plan. plan.needs.blocks ≤ 2 ^ 31) }
    ensures whole { HasRoomFor ks drafted.draft.index (length drafted.draft.entries.items)
        → IfErr result (λ stop. ¬ IsMalformed stop) }
    ensures calm { ¬ IsErrOf result PlanStop.Failed }
{
    let Drafted { draft, old } = drafted;
    if !has_room(ks, &draft.index, draft.entries.len()) {
        return Err(PlanStop::Malformed {
            at: draft.index.tree,
            kind: BlockKind::Tree,
        });
    }
    match spelled_plan(alloc, ks, draft, old) {
        Ok(plan) => Ok(plan),
        Err(NoMemory) => Err(PlanStop::NoMemory),
    }
}
