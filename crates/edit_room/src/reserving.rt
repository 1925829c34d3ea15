ghost use Rattle.std.specs.Prelude.{◌≡◌, ◌≢◌, ◌↔◌, ◌⊎◌, ◌++◌, List, length, None};
ghost use Rattle.std.specs.Prelude.{IfSome, IfOk, IfErr, IsTrue, OnOk, OnErr};
ghost use Rattle.std.specs.List.{Contains};
ghost use Rattle.std.specs.List.Sorted.{IsPermutation};
ghost use Rattle.outside.specs.Blocks.{Block};
ghost use Rattle.outside.specs.Space.{Ascend, HasRoom, IsReady};
ghost use Rattle.block_space.specs.Blocks.{Keeps, space_of, spare_of};
ghost use Rattle.block_space.specs.Catalogue.{blocks_of};
ghost use Rattle.block_space.specs.Plans.{FitsCatalogue};
ghost use Rattle.block_space.specs.Reserved.{AskedStay, IsReserved};
ghost use Rattle.edit_room.specs.Reserving.{HasLongSegment, IsAdmitted, IsRefusedBy, asked_blocks, closing_blocks};
ghost use Rattle.edit_room.specs.Touched.{IsTouchedBy};

use crate::stop::RoomStop;
use crate::touching::touched_ranges;
use block_space::{Blocks, EditPlan, ReserveStop, Take, reserved_covers};
use h5_base::{Extent, MemClass, NoMemory};
use outside::Space;
use std::alloc::Global;

/// The bytes of the longest data segment of a local heap.
const MOST_SEGMENT: u64 = 16_777_216;

// Whether a block of a local heap is longer than a segment may be.
fn has_long_segment(takes: &[Take]) -> bool
    ensures { IsTrue result ↔ HasLongSegment takes.now }
{
    takes.iter().any(|take| take.class == MemClass::LocalHeap && take.len > MOST_SEGMENT)
}

// Whether a limit is passed, the number of blocks aside.
fn passes_limit<V: Space>(blocks: &Blocks<V>, plan: &EditPlan, ranges: &Vec<Extent>) -> bool
    requires ascend { Ascend ranges.now.items }
    ensures passes { IsTrue result → HasLongSegment plan.now.takes
        ⊎ (¬ HasRoom (V.view (space_of blocks.now)).committed ranges.now.items) }
    ensures segments { ¬ IsTrue result → ¬ HasLongSegment plan.now.takes }
    ensures room { ¬ IsTrue result → HasRoom (V.view (space_of blocks.now)).committed ranges.now.items }
{
    has_long_segment(plan.takes.as_slice()) || !blocks.space().room_left(ranges)
}

// Adds the range that the end of the session writes, where there is one.
fn push_closing(ranges: &mut Vec<Extent>, closing: Option<Extent>) -> Result<(), NoMemory>
    ensures { OnOk result (blocks_of ranges.new.items ≡ blocks_of ranges.old.items ++ closing_blocks closing) }
{
    let Some(range) = closing else {
        return Ok(());
    };
    match ranges.push(range) {
        Ok(()) => Ok(()),
        Err(_) => Err(NoMemory),
    }
}

// The ranges of some writes and of the end of the session, in ascending order of their starts.
fn with_closing(
    alloc: Global,
    writes: &[Extent],
    closing: Option<Extent>,
) -> Result<Vec<Extent>, NoMemory>
    ensures ascend { IfOk result (λ ranges. Ascend ranges.items) }
    ensures all { IfOk result (λ ranges. IsPermutation (blocks_of ranges.items)
        (blocks_of writes.now ++ closing_blocks closing)) }
{
    let Ok(mut ranges) = Vec::from_slice(alloc, writes) else {
        return Err(NoMemory);
    };
    push_closing(&mut ranges, closing)?;
    match ranges.sort_by_key(|range| range.start) {
        Ok(()) => Ok(ranges),
        Err(_) => Err(NoMemory),
    }
}

/// Judges the limits and then the room of an edit, and reserves for it, and for the range that the end of the session
/// writes: then the edit is applied without memory, and the range is written so whenever the session ends. Nothing is
/// written. It answers the ranges that the edit touches, as `touched_ranges` does.
///
/// `Limit` comes where the file would have too many blocks, where a heap would get too long a segment, or where the
/// file with the revisions would have too many bytes; else `Full` where a region is too short. Then the space is as it
/// was. After `NoMemory` each range that was given before, and is asked for again, stays given.
pub fn reserve_edit<V: Space>(
    alloc: Global,
    blocks: &mut Blocks<V>,
    plan: &EditPlan,
    closing: Option<Extent>,
) -> Result<Vec<Extent>, RoomStop>
    requires stands { V.Stands (space_of blocks.old) }
    requires writable { IsTrue (V.view (space_of blocks.old)).writable }
    requires fits { (met : List Block) × Keeps V.view blocks.old met × FitsCatalogue met plan.now }
    requires closing { IfSome closing (λ _. (V.view (space_of blocks.old)).committed ≡ None) }
    ensures ascend { IfOk result (λ ranges. Ascend ranges.items) }
    ensures touched { IfOk result (λ ranges. IsTouchedBy (V.view (space_of blocks.old)) plan.now ranges.items) }
    ensures judged { IfOk result (λ ranges. (met : List Block) → Keeps V.view blocks.old met
        → IsAdmitted (V.view (space_of blocks.old)) (length met) plan.now ranges.items) }
    ensures reserved { OnOk result ((met : List Block) → Keeps V.view blocks.old met
        → IsReserved (V.view (space_of blocks.new)) (spare_of blocks.new) (length met) plan.now) }
    ensures closes { OnOk result (IfSome closing
        (λ range. IsReady (V.view (space_of blocks.new)) range.start range.len)) }
    ensures holds_closing { OnOk result (IfSome closing
        (λ range. Contains (V.view (space_of blocks.new)).prepared range)) }
    ensures refused { IfErr result (λ stop. (met : List Block) → Keeps V.view blocks.old met
        → IsRefusedBy (V.view (space_of blocks.old)) (length met) plan.now stop) }
    ensures same { IfErr result (λ stop. stop ≢ RoomStop.NoMemory
        → V.view (space_of blocks.new) ≡ V.view (space_of blocks.old)) }
    ensures given { OnErr result (AskedStay (asked_blocks (V.view (space_of blocks.old)) plan.now closing)
        (V.view (space_of blocks.old)) (V.view (space_of blocks.new))) }
    ensures kept { (met : List Block) → Keeps V.view blocks.old met → Keeps V.view blocks.new met }
    ensures readied { V.Readied (space_of blocks.old) (space_of blocks.new) }
{
    let Ok(ranges) = touched_ranges(alloc, blocks, plan) else {
        return Err(RoomStop::NoMemory);
    };
    if passes_limit(blocks, plan, &ranges) {
        return Err(RoomStop::Limit);
    }
    let Ok(writes) = with_closing(alloc, plan.writes.as_slice(), closing) else {
        return Err(RoomStop::NoMemory);
    };
    reserved_covers();
    match blocks.reserve(alloc, &plan.needs, &writes) {
        Ok(()) => Ok(ranges),
        Err(ReserveStop::TooMany) => Err(RoomStop::Limit),
        Err(ReserveStop::Full { end, need }) => Err(RoomStop::Full { end, need }),
        Err(ReserveStop::NoMemory) => Err(RoomStop::NoMemory),
    }
}
