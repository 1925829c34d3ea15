ghost use Rattle.std.specs.Prelude.{◌≡◌, ◌≢◌, ◌↔◌, ◌+◌, ◌-◌, ◌^◌, ◌<◌, ◌≤◌, ◌++◌, List, length, min};
ghost use Rattle.std.specs.Prelude.{IfSome, IfNone, IfOk, IfErr, IsTrue, OnOk, OnErr, IsErrOf};
ghost use Rattle.std.specs.List.Sorted.{IsPermutation};
ghost use Rattle.outside.specs.Blocks.{Block};
ghost use Rattle.outside.specs.Space.{Ascend, StaysGiven, same_region};
ghost use Rattle.block_space.specs.Blocks.{Keeps, spare_of, space_of};
ghost use Rattle.block_space.specs.Catalogue.{IsListed, blocks_of};
ghost use Rattle.block_space.specs.Plans.{HasRoomFor, IsFirstShort, IsNoRoom, IsShort, all_needed, need_of, new_range};
ghost use Rattle.block_space.specs.Plans.{new_ranges, share};
ghost use Rattle.block_space.specs.Reserved.{AskedStay, ReservedCovers, RoomInAnyOrder};

use crate::blocks::{Blocks, MOST_BLOCKS};
use crate::plan::{Needs, ReserveStop};
use crate::regions::CLASSES;
use h5_base::{Extent, MemClass, NoMemory, Region};
use outside::Space;
use std::alloc::Global;

/// Whether two classes have one region.
fn is_same(a: Region, b: Region) -> bool
    ensures { result ≡ same_region a b }
{
    a.start == b.start && a.limit == b.limit
}

impl<V: Space> Blocks<V> {
    // What one class needs of the region of another.
    fn share(&self, needs: &Needs, other: MemClass, class: MemClass) -> u64
        ensures { result ≡ share (V.view (space_of self.now)).regions needs.now class other }
    {
        if is_same(self.space.region(other), self.space.region(class)) {
            needs.of(other)
        } else {
            0
        }
    }

    // The bytes that are needed of the region of a class, or 2^64 - 1 where they are more.
    fn region_need(&self, needs: &Needs, class: MemClass) -> u64
        ensures { result ≡ min (need_of (V.view (space_of self.now)).regions needs.now class) (2 ^ 64 - 1) }
    {
        let mut sum = 0u64;
        for other in &CLASSES {
            sum = sum.saturating_add(self.share(needs, *other, class));
        }
        sum
    }

    // Whether the region of a class is too short for what is needed.
    fn is_short(&self, needs: &Needs, class: MemClass) -> bool
        requires stands { V.Stands (space_of self.now) }
        requires small { all_needed needs.now < 2 ^ 64 }
        ensures { IsTrue result ↔ IsShort (V.view (space_of self.now)) needs.now class }
    {
        let (end, limit) = (self.space.end(class), self.space.region(class).limit);
        self.region_need(needs, class) > limit - end
    }

    // The first class whose region is too short.
    fn short_class(&self, needs: &Needs) -> Option<MemClass>
        requires stands { V.Stands (space_of self.now) }
        requires small { all_needed needs.now < 2 ^ 64 }
        ensures first { IfSome result (IsFirstShort (V.view (space_of self.now)) needs.now) }
        ensures none { IfNone result ((c : MemClass) → ¬ IsShort (V.view (space_of self.now)) needs.now c) }
    {
        for class in &CLASSES {
            if self.is_short(needs, *class) {
                return Some(*class);
            }
        }
        None
    }

    // Adds the range behind the end for what is needed of a class, where something is.
    fn push_range(
        &self,
        needs: &Needs,
        class: MemClass,
        ranges: &mut Vec<Extent>,
    ) -> Result<(), NoMemory>
        requires stands { V.Stands (space_of self.now) }
        requires small { all_needed needs.now < 2 ^ 64 }
        requires room { ¬ IsShort (V.view (space_of self.now)) needs.now class }
        ensures { OnOk result (blocks_of ranges.new.items ≡ blocks_of ranges.old.items
            ++ new_range (V.view (space_of self.now)) needs.now class) }
    {
        if needs.of(class) == 0 {
            return Ok(());
        }
        let range = Extent {
            start: self.space.end(class),
            len: self.region_need(needs, class),
        };
        match ranges.push(range) {
            Ok(()) => Ok(()),
            Err(_) => Err(NoMemory),
        }
    }

    /// The ranges of an edit that writes these ranges and takes what is needed, in ascending order of their starts: for
    /// `room_left` and `commit_refusal`.
    pub fn ranges(
        &self,
        alloc: Global,
        needs: &Needs,
        writes: &Vec<Extent>,
    ) -> Result<Vec<Extent>, NoMemory>
        requires stands { V.Stands (space_of self.now) }
        requires small { all_needed needs.now < 2 ^ 64 }
        requires room { (c : MemClass) → ¬ IsShort (V.view (space_of self.now)) needs.now c }
        ensures ascend { IfOk result (λ ranges. Ascend ranges.items) }
        ensures all { IfOk result (λ ranges. IsPermutation (blocks_of ranges.items)
            (blocks_of writes.now.items ++ new_ranges (V.view (space_of self.now)) needs.now)) }
    {
        let Ok(mut ranges) = writes.clone() else {
            return Err(NoMemory);
        };
        for class in &CLASSES {
            self.push_range(needs, *class, &mut ranges)?;
        }
        match ranges.sort_by_key(|range| range.start) {
            Ok(()) => Ok(ranges),
            Err(_) => Err(NoMemory),
        }
    }

    // Whether there is room for what is needed, memory aside.
    fn find_room(&self, needs: &Needs) -> Result<(), ReserveStop>
        requires stands { V.Stands (space_of self.now) }
        requires small { all_needed needs.now < 2 ^ 64 }
        ensures room { OnOk result ((met : List Block) → Keeps V.view self.now met
            → HasRoomFor (V.view (space_of self.now)) (length met) needs.now) }
        ensures fits { OnOk result ((c : MemClass) → ¬ IsShort (V.view (space_of self.now)) needs.now c) }
        ensures none { IfErr result (λ stop. (met : List Block) → Keeps V.view self.now met
            → IsNoRoom (V.view (space_of self.now)) (length met) needs.now stop) }
        ensures memory { ¬ IsErrOf result ReserveStop.NoMemory }
    {
        if self.catalogue.count().saturating_add(needs.blocks as usize) > MOST_BLOCKS {
            return Err(ReserveStop::TooMany);
        }
        match self.short_class(needs) {
            Some(class) => Err(ReserveStop::Full {
                end: self.space.end(class),
                need: self.region_need(needs, class),
            }),
            None => Ok(()),
        }
    }

    // Makes room for so many blocks, and in the space for these ranges.
    fn make_room(&mut self, blocks: u32, ranges: &Vec<Extent>) -> Result<(), NoMemory>
        requires stands { V.Stands (space_of self.old) }
        requires ascend { Ascend ranges.now.items }
        ensures spare { OnOk result (blocks ≤ spare_of self.new) }
        ensures prepared { OnOk result ((V.view (space_of self.new)).prepared ≡ ranges.now.items) }
        ensures given { OnErr result (StaysGiven ranges.now.items (V.view (space_of self.old))
            (V.view (space_of self.new))) }
        ensures kept { (met : List Block) → Keeps V.view self.old met → Keeps V.view self.new met }
        ensures readied { V.Readied (space_of self.old) (space_of self.new) }
    {
        self.catalogue.make_room(blocks as usize)?;
        self.space.prepare(ranges)
    }

    /// Makes room for what is needed behind the ends and for writes in these ranges, which ascend by their starts, and
    /// for nothing else. Then blocks are taken and patched without memory. `TooMany` comes exactly where the catalogue
    /// would have more blocks than a file may have, else `Full` exactly where a region is too short: of the first such
    /// class its region's end, and all that is needed of that region.
    pub fn reserve(
        &mut self,
        alloc: Global,
        needs: &Needs,
        writes: &Vec<Extent>,
    ) -> Result<(), ReserveStop>
        requires stands { V.Stands (space_of self.old) }
        requires ascend { Ascend writes.now.items }
        requires small { all_needed needs.now < 2 ^ 64 }
        ensures room { OnOk result ((met : List Block) → Keeps V.view self.old met
            → HasRoomFor (V.view (space_of self.old)) (length met) needs.now) }
        ensures prepared { OnOk result (IsPermutation (blocks_of (V.view (space_of self.new)).prepared)
            (blocks_of writes.now.items ++ new_ranges (V.view (space_of self.old)) needs.now)) }
        ensures ascending { OnOk result (Ascend (V.view (space_of self.new)).prepared) }
        ensures spare { OnOk result (needs.now.blocks ≤ spare_of self.new) }
        ensures refused { IfErr result (λ stop. (met : List Block) → Keeps V.view self.old met
            → IsNoRoom (V.view (space_of self.old)) (length met) needs.now stop) }
        ensures given { OnErr result (AskedStay (blocks_of writes.now.items
            ++ new_ranges (V.view (space_of self.old)) needs.now) (V.view (space_of self.old))
            (V.view (space_of self.new))) }
        ensures same { IfErr result (λ stop. stop ≢ ReserveStop.NoMemory
            → V.view (space_of self.new) ≡ V.view (space_of self.old)) }
        ensures kept { (met : List Block) → Keeps V.view self.old met → Keeps V.view self.new met }
        ensures readied { V.Readied (space_of self.old) (space_of self.new) }
    {
        if self.catalogue.gather().is_err() {
            return Err(ReserveStop::NoMemory);
        }
        self.find_room(needs)?;
        let Ok(ranges) = self.ranges(alloc, needs, writes) else {
            return Err(ReserveStop::NoMemory);
        };
        match self.make_room(needs.blocks, &ranges) {
            Ok(()) => Ok(()),
            Err(NoMemory) => Err(ReserveStop::NoMemory),
        }
    }

    /// The address that `take` gives for a class once blocks of `ahead` are taken: the region's end and what is needed
    /// of the region, or 2^64 - 1 where that is more.
    pub fn next(&self, class: MemClass, ahead: &Needs) -> u64
        ensures { result ≡ min ((V.view (space_of self.now)).ends class
            + need_of (V.view (space_of self.now)).regions ahead.now class) (2 ^ 64 - 1) }
    {
        self.space
            .end(class)
            .saturating_add(self.region_need(ahead, class))
    }
}

/// What `reserve` prepares a space for covers the writes, and what is needed behind the ends.
pub fn reserved_covers()
    ensures { ReservedCovers }
{}

/// Whether there is room for ranges doesn't depend on their order: what a space answers of the ranges of an edit is so
/// of what `reserve` prepares it for.
pub fn room_in_any_order()
    ensures { RoomInAnyOrder }
{}
