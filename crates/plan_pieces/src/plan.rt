ghost use Rattle.std.specs.Prelude.{◌≡◌, ◌++◌, ◌+◌, ◌<◌, ◌^◌, All, IfOk, length};
ghost use Rattle.std.specs.List.Sorted.{IsNonDecreasingBy};
ghost use Rattle.block_space.specs.Catalogue.{blocks_of};
ghost use Rattle.plan_pieces.specs.Images.{image_blocks, images_of, takes_of};
ghost use Rattle.plan_pieces.specs.Plan.{AreChanged, EndsBelow, IsPlanOf, NeedsBelow, bytes_in};

use crate::changed::changed_images;
use crate::image::{Image, NewBlock};
use crate::needs::needs_of;
use block_space::{EditPlan, Take};
use h5_base::{Bytes, Extent, List, NoMemory};
use std::alloc::Global;

#[tactic(auto, using(crate::proofs::Ranged::range_next, crate::proofs::Ranged::ranges_whole))]
// The range of each image.
fn ranges_in(alloc: Global, images: &[Image]) -> Result<Vec<Extent>, NoMemory>
    requires ends { All EndsBelow images.now }
    ensures { IfOk result (λ ranges. blocks_of ranges.items ≡ image_blocks images.now) }
{
    let mut ranges = Vec::new(alloc);
    for image in images {
        let range = Extent {
            start: image.at,
            len: image.bytes.len() as u64,
        };
        match ranges.push(range) {
            Ok(()) => {}
            Err(_) => return Err(NoMemory),
        }
    }
    Ok(ranges)
}

// How each block is taken.
fn takes_in(alloc: Global, fills: &[NewBlock]) -> Result<Vec<Take>, NoMemory>
    ensures { IfOk result (λ takes. takes.items ≡ takes_of fills.now) }
{
    let takes = fills.iter().map(|fill| Take {
        class: fill.class,
        len: fill.image.bytes.len() as u64,
        kind: fill.kind,
    });
    match takes.collect(alloc) {
        Ok(takes) => Ok(takes),
        Err(_) => Err(NoMemory),
    }
}

// The bytes of the images, and then those of the blocks.
fn join_bytes(
    alloc: Global,
    images: Vec<Image>,
    fills: Vec<NewBlock>,
) -> Result<Vec<Bytes>, NoMemory>
    ensures { IfOk result (λ bytes. bytes.items ≡ bytes_in images.items ++ bytes_in (images_of fills.items)) }
{
    let changed = images.into_iter().map(|image| image.bytes);
    let taken = fills.into_iter().map(|fill| fill.image.bytes);
    match changed.chain(taken).collect(alloc) {
        Ok(bytes) => Ok(bytes),
        Err(_) => Err(NoMemory),
    }
}

// Those of the images that don't stand already, in ascending order of their addresses.
fn sorted_changes(
    alloc: Global,
    old: Vec<Image>,
    writes: Vec<Image>,
) -> Result<Vec<Image>, NoMemory>
    ensures changed { IfOk result (λ images. AreChanged old.items writes.items images.items) }
    ensures ascend { IfOk result (λ images. IsNonDecreasingBy (λ i. i.at) images.items) }
{
    let mut images = changed_images(alloc, old, writes)?;
    match images.sort_by_key(|image| image.at) {
        Ok(()) => Ok(images),
        Err(_) => Err(NoMemory),
    }
}

/// The plan that writes the images and takes the blocks, in this order; it may leave out images that stand already. The
/// addresses behind the images are numbers of 64 bits.
pub fn make_plan(
    alloc: Global,
    old: Vec<Image>,
    writes: Vec<Image>,
    fills: Vec<NewBlock>,
) -> Result<EditPlan, NoMemory>
    requires ends { All EndsBelow writes.items }
    requires sums { NeedsBelow fills.items }
    requires few { length fills.items < 2 ^ 32 }
    ensures { IfOk result (λ plan. IsPlanOf old.items writes.items fills.items plan) }
{
    let images = sorted_changes(alloc, old, writes)?;
    let needs = needs_of(&fills);
    let ranges = ranges_in(alloc, &images)?;
    let takes = takes_in(alloc, &fills)?;
    let bytes = join_bytes(alloc, images, fills)?;
    Ok(EditPlan {
        needs,
        takes: List::from_vec(takes),
        writes: List::from_vec(ranges),
        images: List::from_vec(bytes),
    })
}
