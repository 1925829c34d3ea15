ghost use Rattle.std.specs.Prelude.{◌↔◌, List, ℕ, Option, IsTrue};
ghost use Rattle.outside.specs.Blocks.{Block, IsInside};
ghost use Rattle.outside.specs.Space.{LiesIn, bounds_of};

use h5_base::MemClass;
use outside::Space;

/// The classes of memory. Regions of several classes are often equal.
pub(crate) const CLASSES: [MemClass; 6] = [
    MemClass::Super,
    MemClass::Tree,
    MemClass::Raw,
    MemClass::GlobalHeap,
    MemClass::LocalHeap,
    MemClass::Header,
];

/// Whether `len` bytes from `start` on lie in the region of a class, below its end.
fn lies_in<V: Space>(space: &V, class: MemClass, start: u64, len: u64) -> bool
    ensures { IsTrue result ↔ LiesIn (V.view space.now).regions (V.view space.now).ends class start len }
{
    let end = space.end(class);
    space.region(class).start <= start && start <= end && len <= end - start
}

/// Whether `len` bytes from `start` on lie whole in one region, below its end.
pub fn lies_inside<V: Space>(space: &V, start: u64, len: u64) -> bool
    ensures { (own : Option (List ℕ)) → IsTrue result ↔ IsInside (bounds_of (V.view space.now) own)
        (record { start = start; len = len }) }
{
    CLASSES
        .iter()
        .any(|class| lies_in(space, *class, start, len))
}
