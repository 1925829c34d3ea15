ghost use Rattle.std.specs.Prelude.{◌≡◌, ◌⊎◌, ◌<◌, ◌≤◌};
ghost use Rattle.outside.specs.Revisions.{IsLogicalEnd};

use h5_base::MemClass;
use outside::Space;

/// The classes of memory. Regions of several classes are often equal.
const CLASSES: [MemClass; 6] = [
    MemClass::Super,
    MemClass::Tree,
    MemClass::Raw,
    MemClass::GlobalHeap,
    MemClass::LocalHeap,
    MemClass::Header,
];

// The greater of a number and the end of a class's region, where the region isn't empty; else the number.
fn greater_end<V: Space>(space: &V, class: MemClass, least: u64) -> u64
    ensures least { least ≤ result }
    ensures above { ((V.view space.now).regions class).start < (V.view space.now).ends class
        → (V.view space.now).ends class ≤ result }
    ensures met { (result ≡ least) ⊎ ((((V.view space.now).regions class).start < (V.view space.now).ends class)
        × (result ≡ (V.view space.now).ends class)) }
{
    let (start, end) = (space.region(class).start, space.end(class));
    if start < end && least < end {
        end
    } else {
        least
    }
}

/// The greatest end of a region that isn't empty, or 0 where all are empty: what the end field is to tell.
pub fn logical_end<V: Space>(space: &V) -> u64
    ensures { IsLogicalEnd (V.view space.now).regions (V.view space.now).ends result }
{
    let mut greatest = 0;
    for class in &CLASSES {
        greatest = greater_end(space, *class, greatest);
    }
    greatest
}
