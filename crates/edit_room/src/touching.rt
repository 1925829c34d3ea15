ghost use Rattle.std.specs.Prelude.{◌≡◌, ◌-◌, ◌++◌, min, List, IfOk, OnOk};
ghost use Rattle.std.specs.List.{flat_map};
ghost use Rattle.outside.specs.Blocks.{Block, placed};
ghost use Rattle.outside.specs.Space.{Ascend};
ghost use Rattle.block_space.specs.Blocks.{Keeps, space_of};
ghost use Rattle.block_space.specs.Catalogue.{blocks_of};
ghost use Rattle.block_space.specs.Plans.{FitsCatalogue, classes, need_of};
ghost use Rattle.edit_room.specs.Touched.{IsTouchedBy, cut_range, filled_ranges};

use block_space::{Blocks, EditPlan, Needs};
use h5_base::{Extent, MemClass, NoMemory};
use outside::Space;
use std::alloc::Global;

/// The classes of memory, in their order.
const CLASSES: [MemClass; 6] = [
    MemClass::Super,
    MemClass::Tree,
    MemClass::Raw,
    MemClass::GlobalHeap,
    MemClass::LocalHeap,
    MemClass::Header,
];

// Adds a range, where it has a byte.
fn push_filled(ranges: &mut Vec<Extent>, range: Extent) -> Result<(), NoMemory>
    ensures { OnOk result (blocks_of ranges.new.items
        ≡ blocks_of ranges.old.items ++ placed range.start range.len) }
{
    if range.len == 0 {
        return Ok(());
    }
    match ranges.push(range) {
        Ok(()) => Ok(()),
        Err(_) => Err(NoMemory),
    }
}

// Adds the ranges that have a byte.
fn push_writes(ranges: &mut Vec<Extent>, writes: &[Extent]) -> Result<(), NoMemory>
    ensures { OnOk result (blocks_of ranges.new.items ≡ blocks_of ranges.old.items ++ filled_ranges writes.now) }
{
    for write in writes {
        push_filled(ranges, *write)?;
    }
    Ok(())
}

// The range behind the end of the region of a class for what is needed of the region, up to its limit.
fn range_behind<V: Space>(blocks: &Blocks<V>, needs: &Needs, class: MemClass) -> Extent
    requires stands { V.Stands (space_of blocks.now) }
    ensures start { result.start ≡ (V.view (space_of blocks.now)).ends class }
    ensures len { result.len ≡ min (need_of (V.view (space_of blocks.now)).regions needs.now class)
        (((V.view (space_of blocks.now)).regions class).limit - (V.view (space_of blocks.now)).ends class) }
{
    let (start, limit) = (
        blocks.space().end(class),
        blocks.space().region(class).limit,
    );
    let end = blocks.next(class, needs).min(limit);
    Extent {
        start,
        len: end - start,
    }
}

// Adds that range, where something is needed of the class and the range has a byte.
fn push_behind<V: Space>(
    ranges: &mut Vec<Extent>,
    blocks: &Blocks<V>,
    needs: &Needs,
    class: MemClass,
) -> Result<(), NoMemory>
    requires stands { V.Stands (space_of blocks.now) }
    ensures { OnOk result (blocks_of ranges.new.items
        ≡ blocks_of ranges.old.items ++ cut_range (V.view (space_of blocks.now)) needs.now class) }
{
    if needs.of(class) == 0 {
        return Ok(());
    }
    push_filled(ranges, range_behind(blocks, needs, class))
}

// Adds the ranges behind the ends of all classes.
fn push_all_behind<V: Space>(
    ranges: &mut Vec<Extent>,
    blocks: &Blocks<V>,
    needs: &Needs,
) -> Result<(), NoMemory>
    requires stands { V.Stands (space_of blocks.now) }
    ensures { OnOk result (blocks_of ranges.new.items
        ≡ blocks_of ranges.old.items ++ flat_map (cut_range (V.view (space_of blocks.now)) needs.now) classes) }
{
    for class in &CLASSES {
        push_behind(ranges, blocks, needs, *class)?;
    }
    Ok(())
}

/// The ranges that an edit touches, in ascending order of their starts: those that it writes, and behind each region's
/// end what it takes of the region, cut at the region's limit. None of them is empty.
pub fn touched_ranges<V: Space>(
    alloc: Global,
    blocks: &Blocks<V>,
    plan: &EditPlan,
) -> Result<Vec<Extent>, NoMemory>
    requires stands { V.Stands (space_of blocks.now) }
    requires fits { (met : List Block) × Keeps V.view blocks.now met × FitsCatalogue met plan.now }
    ensures ascend { IfOk result (λ ranges. Ascend ranges.items) }
    ensures touched { IfOk result (λ ranges. IsTouchedBy (V.view (space_of blocks.now)) plan.now ranges.items) }
{
    let mut ranges = Vec::new(alloc);
    push_writes(&mut ranges, plan.writes.as_slice())?;
    push_all_behind(&mut ranges, blocks, &plan.needs)?;
    match ranges.sort_by_key(|range| range.start) {
        Ok(()) => Ok(ranges),
        Err(_) => Err(NoMemory),
    }
}
