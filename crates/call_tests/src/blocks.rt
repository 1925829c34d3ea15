// The catalogue of a file in memory, and an edit of it; and the room in a space of two regions.
ghost use Rattle.std.specs.Prelude.{◌≡◌, ◌+◌, ◌^◌, ◌<◌, ◌∷◌, [], List, IsTrue, IfOk, OnOk};
ghost use Rattle.h5_base.specs.declared.extent.MemClass.{MemClass};
ghost use Rattle.outside.specs.Blocks.{Block};
ghost use Rattle.block_space.specs.Blocks.{Keeps, space_of};
ghost use Rattle.block_space.specs.Plans.{FitsCatalogue, all_needed, need_of, planned};

use crate::files::{holds, space_of_file};
use crate::regions::TwoRegions;
use block_space::{
    Blocks, EditPlan, Needs, ReserveStop, Take, ends_behind_needs, reserved_covers,
    room_in_any_order,
};
use h5_base::{BlockKind, Bytes, Comment, Extent, List, MemClass};
use mem_store::MemStore;
use outside::{CommitAnswer, Space};
use plain_space::PlainSpace;
use std::alloc::Global;
use std::test::Fail;

// Whether a block is kept, one of another length, the block while the catalogue is set aside, and once it is put back.
fn keeps<V: Space>(alloc: Global, blocks: &mut Blocks<V>) -> Result<[bool; 4], Fail>
    requires { V.Stands (space_of blocks.old) }
{
    blocks.adopt(2, 3, BlockKind::Raw)?;
    let (kept, longer) = (blocks.holds(2, 3)?, blocks.holds(2, 4)?);
    let catalogue = blocks.set_aside(alloc);
    let meanwhile = blocks.holds(2, 3)?;
    blocks.put_back(catalogue);
    Ok([kept, longer, meanwhile, blocks.holds(2, 3)?])
}

/// What is set aside is kept again once it is put back.
#[test]
fn catalogue_is_put_back(rt: HostRuntime) -> Result<(), Fail> {
    let alloc = rt.alloc();
    let mut blocks = Blocks::new(alloc, space_of_file(alloc, b"abcdef")?);
    assert!(rt; keeps(alloc, &mut blocks)? == [true, false, false, true]);
    Ok(())
}

// The takes of the plan.
const TAKES: [Take; 3] = [
    Take {
        class: MemClass::Tree,
        len: 5,
        kind: BlockKind::Snod,
    },
    Take {
        class: MemClass::Raw,
        len: 8,
        kind: BlockKind::Raw,
    },
    Take {
        class: MemClass::Header,
        len: 9,
        kind: BlockKind::Header,
    },
];

// An image for each write of the plan, and then one for each take, of which the second is empty.
fn images(alloc: Global) -> Result<Vec<Bytes>, Fail>
    ensures { IfOk result (λ images. images.items ≡ (88 ∷ 89 ∷ 90 ∷ []) ∷ (52 ∷ 53 ∷ [])
        ∷ (97 ∷ 98 ∷ 99 ∷ 100 ∷ 101 ∷ []) ∷ [] ∷ (65 ∷ 66 ∷ 67 ∷ 68 ∷ 69 ∷ 70 ∷ 71 ∷ 72 ∷ 73 ∷ []) ∷ []) }
{
    let images = [
        Bytes::from_slice(alloc, b"XYZ")?,
        Bytes::from_slice(alloc, b"45")?,
        Bytes::from_slice(alloc, b"abcde")?,
        Bytes::from_slice(alloc, b"")?,
        Bytes::from_slice(alloc, b"ABCDEFGHI")?,
    ];
    let Ok(images) = Vec::from_array(alloc, images) else {
        return Err(Fail::new("out of memory"));
    };
    Ok(images)
}

// A plan over a block of 16 bytes: two writes in it, and three takes, of which the second has no image.
fn plan(alloc: Global) -> Result<EditPlan, Fail>
    ensures { IfOk result (λ plan. FitsCatalogue (record { start = 0; len = 16 } ∷ []) plan) }
{
    let writes = [Extent { start: 2, len: 3 }, Extent { start: 10, len: 2 }];
    let images = images(alloc)?;
    Ok(EditPlan {
        needs: Needs {
            bytes: [0, 8, 8, 0, 0, 16],
            blocks: 3,
        },
        takes: List::from_vec(Vec::from_slice(alloc, &TAKES)?),
        writes: List::from_vec(Vec::from_slice(alloc, &writes)?),
        images: List::from_vec(images),
    })
}

// Reserves what a plan needs, and applies it, where there is room for its ranges.
fn edit<V: Space>(alloc: Global, blocks: &mut Blocks<V>, plan: EditPlan) -> Result<(), Fail>
    requires stands { V.Stands (space_of blocks.old) }
    requires writable { IsTrue (V.view (space_of blocks.old)).writable }
    requires fits { (met : List Block) × Keeps V.view blocks.old met × FitsCatalogue met plan }
    ensures array { IsTrue V.tells → OnOk result ((V.view (space_of blocks.new)).array
        ≡ planned (V.view (space_of blocks.old)).regions (V.view (space_of blocks.old)).ends plan
        (V.view (space_of blocks.old)).array) }
    ensures ends { OnOk result ((c : MemClass) → (V.view (space_of blocks.new)).ends c
        ≡ (V.view (space_of blocks.old)).ends c + need_of (V.view (space_of blocks.old)).regions plan.needs c) }
{
    let writes = Vec::from_slice(alloc, plan.writes.as_slice())?;
    blocks.reserve(alloc, &plan.needs, &writes)?;
    let ranges = blocks.ranges(alloc, &plan.needs, &writes)?;
    if !blocks.space().room_left(&ranges) {
        return Err(Fail::new("no room for revisions"));
    }
    reserved_covers();
    room_in_any_order();
    ends_behind_needs();
    blocks.apply(&plan)?;
    Ok(())
}

// A file of 20 bytes after the plan.
fn edited(alloc: Global) -> Result<PlainSpace<MemStore>, Fail> {
    let space = space_of_file(alloc, b"....................")?;
    let mut blocks = Blocks::new(alloc, space);
    blocks.adopt(0, 16, BlockKind::Raw)?;
    edit(alloc, &mut blocks, plan(alloc)?)?;
    Ok(blocks.finish())
}

/// Each take lies at the file's end, which rises by a multiple of 8.
#[test]
fn plan_is_applied(rt: HostRuntime) -> Result<(), Fail> {
    let alloc = rt.alloc();
    let store = edited(alloc)?.into_store();
    let want = b"..XYZ.....45........abcde\0\0\0\0\0\0\0\0\0\0\0ABCDEFGHI\0\0\0\0\0\0\0";
    assert!(rt; holds(alloc, &store, want));
    Ok(())
}

// Makes the files of a space last, and asks for a revision.
fn last<V: Space>(blocks: &mut Blocks<V>, comment: &Comment) -> Result<CommitAnswer, Fail>
    requires stands { V.Stands (space_of blocks.old) }
    requires writable { IsTrue (V.view (space_of blocks.old)).writable }
{
    blocks.settle()?;
    Ok(blocks.commit(comment, 0)?)
}

/// A file without revisions is settled as it is, and none is made.
#[test]
fn settled_without_revisions(rt: HostRuntime) -> Result<(), Fail> {
    let alloc = rt.alloc();
    let mut blocks = Blocks::new(alloc, space_of_file(alloc, b"abcdef")?);
    let comment = Comment::new(alloc, b"one")?;
    assert!(rt; last(&mut blocks, &comment)? == CommitAnswer::NoOnion);
    assert!(rt; holds(alloc, &blocks.finish().into_store(), b"abcdef"));
    Ok(())
}

// Where a block of a class comes to lie behind so many bytes of each.
fn place<V: Space>(blocks: &Blocks<V>, class: MemClass, bytes: [u64; 6]) -> u64 {
    blocks.next(class, &Needs { bytes, blocks: 0 })
}

// Where the three takes of the plan come to lie, and what comes behind them.
fn places<V: Space>(blocks: &Blocks<V>) -> [u64; 4] {
    [
        place(blocks, MemClass::Tree, [0; 6]),
        place(blocks, MemClass::Raw, [0, 8, 0, 0, 0, 0]),
        place(blocks, MemClass::Header, [0, 8, 8, 0, 0, 0]),
        place(blocks, MemClass::Super, [0, 8, 8, 0, 0, 16]),
    ]
}

/// The classes that have one region lie one behind the other.
#[test]
fn next_places(rt: HostRuntime) -> Result<(), Fail> {
    let alloc = rt.alloc();
    let file = Blocks::new(alloc, space_of_file(alloc, b"....................")?);
    let two = Blocks::new(alloc, TwoRegions::new(alloc));
    assert!(rt; places(&file) == [20, 28, 36, 52]);
    assert!(rt; places(&two) == [96, 1_048_576, 104, 120]);
    Ok(())
}

// What is answered where so many blocks are needed, and so many bytes of each class.
fn reserved(alloc: Global, blocks: u32, bytes: [u64; 6]) -> Result<(), ReserveStop>
    requires { all_needed (record { bytes = bytes; blocks = blocks }) < 2 ^ 64 }
{
    let mut two = Blocks::new(alloc, TwoRegions::new(alloc));
    two.reserve(alloc, &Needs { bytes, blocks }, &Vec::new(alloc))
}

/// A region takes just what it has room for, and the first that is too short is told with all that is needed of it,
/// unless the blocks are too many.
#[test]
fn region_is_full(rt: HostRuntime) {
    let alloc = rt.alloc();
    let full = |end, need| Err(ReserveStop::Full { end, need });
    assert!(rt; reserved(alloc, 6, [100, 200, 63, 1, 600, 4]) == Ok(()));
    assert!(rt; reserved(alloc, 4, [0, 200, 65, 0, 600, 105]) == full(96, 905));
    assert!(rt; reserved(alloc, 3, [0, 0, 60, 5, 904, 0]) == full(1_048_576, 65));
    assert!(rt; reserved(alloc, 1_048_577, [0, 0, 65, 0, 0, 0]) == Err(ReserveStop::TooMany));
}
