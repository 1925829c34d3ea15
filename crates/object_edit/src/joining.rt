ghost use Rattle.std.specs.Prelude.{◌≡◌, ◌++◌, ◌+◌, ◌<◌, ◌≤◌, ◌^◌, [], IfOk, drop, length, take};
ghost use Rattle.block_space.specs.Plans.{all_needed, needed};
ghost use Rattle.h5_base.specs.declared.extent.MemClass.{MemClass};
ghost use Rattle.object_edit.specs.Joined.{IsJoined, JoinedFits, JoinedMeans, TakenInParts};

use block_space::{EditPlan, Needs, Take};
use h5_base::{Bytes, List, MemClass, NoMemory};
use std::alloc::Global;

/// What two plans need together.
fn both_needs(first: &Needs, second: &Needs) -> Needs
    requires bytes { all_needed first.now + all_needed second.now < 2 ^ 64 }
    requires blocks { first.now.blocks + second.now.blocks < 2 ^ 32 }
    ensures bytes { (c : MemClass) → needed result c ≡ needed first.now c + needed second.now c }
    ensures blocks { result.blocks ≡ first.now.blocks + second.now.blocks }
{
    let (a, b) = (first.bytes, second.bytes);
    Needs {
        bytes: [
            a[0] + b[0],
            a[1] + b[1],
            a[2] + b[2],
            a[3] + b[3],
            a[4] + b[4],
            a[5] + b[5],
        ],
        blocks: first.blocks + second.blocks,
    }
}

/// The takes of two plans, one after the other.
fn join_takes(alloc: Global, own: List<Take>, link: List<Take>) -> Result<Vec<Take>, NoMemory>
    ensures { IfOk result (λ takes. takes.items ≡ own ++ link) }
{
    let takes = own.into_vec().into_iter().chain(link.into_vec());
    match takes.collect(alloc) {
        Ok(takes) => Ok(takes),
        Err(_) => Err(NoMemory),
    }
}

/// The images of the writes, then those of the plan's own takes, then those of the link's. No image is copied.
fn join_images(
    alloc: Global,
    own: List<Bytes>,
    link: List<Bytes>,
    writes: usize,
) -> Result<Vec<Bytes>, NoMemory>
    requires { writes ≤ length link }
    ensures { IfOk result (λ images. images.items ≡ take writes link ++ own ++ drop writes link) }
{
    let mut written = link.into_vec();
    let Ok(taken) = written.split_off(writes) else {
        return Err(NoMemory);
    };
    let first = written.into_iter().chain(own.into_vec());
    match first.chain(taken).collect(alloc) {
        Ok(images) => Ok(images),
        Err(_) => Err(NoMemory),
    }
}

/// One plan of two: of an object's own blocks, which writes nothing, and of the link to the object. It takes the blocks
/// of the first, then those of the second, and writes what the second writes.
pub fn join_plans(alloc: Global, own: EditPlan, link: EditPlan) -> Result<EditPlan, NoMemory>
    requires unwritten { own.writes ≡ [] }
    requires images { length link.writes ≤ length link.images }
    requires bytes { all_needed own.needs + all_needed link.needs < 2 ^ 64 }
    requires blocks { own.needs.blocks + link.needs.blocks < 2 ^ 32 }
    ensures { IfOk result (λ joined. IsJoined own link joined) }
{
    let needs = both_needs(&own.needs, &link.needs);
    let images = join_images(alloc, own.images, link.images, link.writes.len())?;
    let takes = join_takes(alloc, own.takes, link.takes)?;
    Ok(EditPlan {
        needs,
        takes: List::from_vec(takes),
        writes: link.writes,
        images: List::from_vec(images),
    })
}

/// Laws of two plans as one. The function does nothing: its clauses are the laws.
pub fn joined_plans()
    ensures taken { TakenInParts }
    ensures means { JoinedMeans }
    ensures fits { JoinedFits }
{}
