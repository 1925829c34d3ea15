ghost use Rattle.std.specs.Prelude.{◌≡◌, ◌⊎◌, ◌++◌, ◌∷◌, [], IfOk, OnOk, IsTrue};
ghost use Rattle.std.specs.List.{Contains};
ghost use Rattle.plan_pieces.specs.Plan.{AreChanged, Joins};

use crate::image::Image;
use h5_base::NoMemory;
use std::alloc::Global;

// Whether the image is one of these, which ascend by their addresses.
fn stands(old: &[Image], image: &Image) -> bool
    ensures { IsTrue result → Contains old.now image.now }
{
    match old.binary_search_by_key(&image.at, |image| image.at) {
        Ok(i) => old[i].at == image.at && old[i].bytes.as_slice() == image.bytes.as_slice(),
        Err(_) => false,
    }
}

// Joins the image to the others, where it isn't one of the old ones, which ascend by their addresses.
fn push_changed(old: &[Image], image: Image, changed: &mut Vec<Image>) -> Result<(), NoMemory>
    ensures { OnOk result (Joins old.now image changed.old.items changed.new.items) }
{
    if stands(old, &image) {
        return Ok(());
    }
    match changed.push(image) {
        Ok(()) => Ok(()),
        Err(_) => Err(NoMemory),
    }
}

/// Those of the images that don't stand already.
#[tactic(auto, using(crate::proofs::Joined::one_more, crate::proofs::Joined::none_changed, crate::proofs::Joined::any_order))]
pub(crate) fn changed_images(
    alloc: Global,
    old: Vec<Image>,
    images: Vec<Image>,
) -> Result<Vec<Image>, NoMemory>
    ensures { IfOk result (λ changed. AreChanged old.items images.items changed.items) }
{
    let mut old = old;
    if old.sort_by_key(|image| image.at).is_err() {
        return Err(NoMemory);
    }
    let mut changed = Vec::new(alloc);
    for image in images {
        push_changed(&old, image, &mut changed)?;
    }
    Ok(changed)
}
