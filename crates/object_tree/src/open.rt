ghost use Rattle.std.specs.Prelude.{◌≡◌, ◌≤◌, ◌++◌, ◌∷◌, [], ℕ, List, None, Some, IsTrue, IfOk, IfErr, IfSome, OnOk};
ghost use Rattle.std.specs.Prelude.{IsErrOf};
ghost use Rattle.outside.specs.Blocks.{Block};
ghost use Rattle.outside.specs.Causes.{OneRose};
ghost use Rattle.outside.specs.Space.{bounds_of};
ghost use Rattle.h5_base.specs.declared.extent.MemClass.TheVariants as class;
ghost use Rattle.block_space.specs.Blocks.{Keeps, Refuses, array_of, space_of};
ghost use Rattle.h5_base.specs.Refusals.{refusal_of};
ghost use Rattle.super_codec.specs.Super.{Spells, Fits};
ghost use Rattle.super_codec.specs.declared.superblock.Superblock.{Superblock};
ghost use Rattle.file_model.specs.Groups.{HasLinks};
ghost use Rattle.file_model.specs.Holds.{GroupAt, FullLinks, HoldsFull, super_bytes_of, founds, blocks_in, ks_of};
ghost use Rattle.file_model.specs.Limits.{IsWithinLimits, IsSmallHeap, most_objects};
ghost use Rattle.file_model.specs.Laws.{all_blocks};
ghost use Rattle.object_model.specs.Tree.{Group};
ghost use Rattle.file_model.specs.RefusedTree.{IsFileRefused, super_block};
ghost use Rattle.tree_nodes.specs.Entries.{superblock_of, object_count};
ghost use Rattle.tree_nodes.specs.Shown.{KeyedLinks};
ghost use Rattle.header_reader.specs.Told.{IsSoundNode};
ghost use Rattle.object_tree.specs.Opened.{IsOpened, file_blocks};
ghost use Rattle.object_tree.specs.Sound.{IsSoundTree, HasSoundNodes};
ghost use Rattle.object_tree.specs.Grown.{HasRoot, AreOpened, IsGroupRefused, table_of};

use crate::growing::{Opening, Place, Table, table_of};
use crate::opening::open_links;
use block_space::Blocks;
use group_reader::TextBudget;
use h5_base::{BlockKind, MemClass, Stop, What};
use header_reader::{Header, read_header};
use outside::Space;
use std::alloc::Global;
use super_codec::{SuperStop, Superblock, read_super};
use tree_nodes::{Node, ObjectTree};

/// Why no tree is opened: what the bytes show, a fault of the space, or want of memory.
pub type TreeStop = Stop;

// How deep the objects below the root may lie.
const MOST_DEPTH: u8 = 32;

// Reads the superblock, which is the first block of the file.
fn read_superblock<V: Space>(alloc: Global, blocks: &mut Blocks<V>) -> Result<Superblock, Stop>
    requires stands { V.Stands (space_of blocks.old) }
    requires empty { Keeps V.view blocks.old [] }
    requires first { ((V.view (space_of blocks.old)).regions class.Super).start ≡ 0 }
    ensures fits { IfOk result Fits }
    ensures found { IsTrue V.tells → IfOk result (λ s. Spells s
        (super_bytes_of (array_of V.view blocks.old) (bounds_of (V.view (space_of blocks.old)) None))) }
    ensures taken { IfOk result (λ s. Keeps V.view blocks.new (super_block s ∷ [])) }
    ensures refused { IsTrue V.tells → IfErr result (λ stop. IfSome (refusal_of stop)
        (IsFileRefused (array_of V.view blocks.old) (bounds_of (V.view (space_of blocks.old)) None))) }
    ensures alike { V.Alike (space_of blocks.old) (space_of blocks.new) }
    ensures failed { IsErrOf result Stop.Failed
        → OneRose (V.faults (space_of blocks.old)) (V.faults (space_of blocks.new)) }
    ensures calm { ¬ IsErrOf result Stop.Failed
        → V.faults (space_of blocks.new) ≡ V.faults (space_of blocks.old) }
{
    let len = 100u64.min(blocks.space().end(MemClass::Super)) as usize;
    let bytes = match blocks.read_bytes(alloc, 0, len) {
        Ok(bytes) => bytes,
        Err(stop) => return Err(stop),
    };
    match read_super(&bytes) {
        Ok(superblock) => match blocks.adopt(0, superblock.byte_len(), BlockKind::Super) {
            Ok(()) => Ok(superblock),
            Err(stop) => Err(stop),
        },
        Err(SuperStop::NotThis) => Err(Stop::malformed(0, BlockKind::Super)),
        Err(SuperStop::Unsupported { what }) => Err(Stop::unsupported(what)),
    }
}

// Reads the root group of a superblock, whose block is the only one so far, and all below it.
fn open_root<V: Space>(
    alloc: Global,
    blocks: &mut Blocks<V>,
    superblock: Superblock,
) -> Result<ObjectTree, Stop>
    requires stands { V.Stands (space_of blocks.old) }
    requires taken { Keeps V.view blocks.old (super_block superblock ∷ []) }
    requires fits { Fits superblock }
    ensures opened { IsTrue V.tells → Spells superblock
        (super_bytes_of (array_of V.view blocks.old) (bounds_of (V.view (space_of blocks.old)) None))
        → IfOk result (λ kept. (o : IsOpened (array_of V.view blocks.old)
        (bounds_of (V.view (space_of blocks.old)) None) kept) × Keeps V.view blocks.new (file_blocks o)) }
    ensures refused { IsTrue V.tells → Spells superblock
        (super_bytes_of (array_of V.view blocks.old) (bounds_of (V.view (space_of blocks.old)) None))
        → IfErr result (λ stop. IfSome (refusal_of stop)
        (IsFileRefused (array_of V.view blocks.old) (bounds_of (V.view (space_of blocks.old)) None))) }
    ensures sound { IfOk result IsSoundTree }
    ensures alike { V.Alike (space_of blocks.old) (space_of blocks.new) }
    ensures listed { OnOk result ((met : List Block) × Keeps V.view blocks.new met) }
    ensures failed { IsErrOf result Stop.Failed
        → OneRose (V.faults (space_of blocks.old)) (V.faults (space_of blocks.new)) }
    ensures calm { ¬ IsErrOf result Stop.Failed
        → V.faults (space_of blocks.new) ≡ V.faults (space_of blocks.old) }
{
    match read_header(alloc, blocks, superblock.root.header_at) {
        Ok(Header::Known { node }) => match table_of(&node) {
            Some(table) => open_below(alloc, blocks, superblock, node, table),
            None => Err(Stop::unsupported(What::Root)),
        },
        Ok(Header::Later) => Err(Stop::unsupported(What::Header)),
        Err(stop) => Err(stop),
    }
}

// Makes the tree of the root, whose B-tree and heap lie there, and of all below it.
fn open_below<V: Space>(
    alloc: Global,
    blocks: &mut Blocks<V>,
    superblock: Superblock,
    root: Node,
    table: Table,
) -> Result<ObjectTree, Stop>
    requires stands { V.Stands (space_of blocks.old) }
    requires listed { (met : List Block) × Keeps V.view blocks.old met }
    requires fits { Fits superblock }
    requires root { IsSoundNode root }
    requires group { table_of root ≡ Some table }
    ensures superblock { IfOk result (λ kept. superblock_of kept ≡ superblock) }
    ensures few { IfOk result (λ kept. object_count kept ≤ most_objects) }
    ensures opened { IfOk result (λ kept. (kls : KeyedLinks) × HasRoot kept root kls × (IsTrue V.tells
        → (met : List Block) → Keeps V.view blocks.old met → (index : List Block) × (ls : FullLinks)
        × HasLinks (array_of V.view blocks.old) (ks_of superblock) table.tree_at table.heap_at (founds ls) index
        × IsSmallHeap (array_of V.view blocks.old) table.heap_at
        × AreOpened (array_of V.view blocks.old) (ks_of superblock) 32 kls ls
        × Keeps V.view blocks.new (met ++ (index ++ blocks_in ls)))) }
    ensures refused { IsTrue V.tells → IfErr result (Refuses V.view blocks.old (λ e met.
        IsGroupRefused (array_of V.view blocks.old) e (ks_of superblock) 32 1 met table.tree_at table.heap_at)) }
    ensures sound { IfOk result HasSoundNodes }
    ensures alike { V.Alike (space_of blocks.old) (space_of blocks.new) }
    ensures listed { OnOk result ((met : List Block) × Keeps V.view blocks.new met) }
    ensures failed { IsErrOf result Stop.Failed
        → OneRose (V.faults (space_of blocks.old)) (V.faults (space_of blocks.new)) }
    ensures calm { ¬ IsErrOf result Stop.Failed
        → V.faults (space_of blocks.new) ≡ V.faults (space_of blocks.old) }
{
    let ks = superblock.k_values();
    let tree = match ObjectTree::empty(alloc, superblock, root) {
        Ok(tree) => tree,
        Err(_) => return Err(Stop::NoMemory),
    };
    let place = Place {
        ks,
        group: tree.root(),
        levels: MOST_DEPTH,
    };
    let mut opening = Opening {
        tree,
        texts: TextBudget::whole(),
    };
    match open_links(alloc, blocks, &mut opening, place, table) {
        Ok(()) => Ok(opening.tree),
        Err(stop) => Err(stop),
    }
}

/// Reads the whole tree of a file, each block once: of a space whose first region begins at address 0, and of whose
/// blocks none is in the catalogue yet. Then the catalogue has the blocks of the tree and no others. A refusal names
/// what the bytes show; `Failed` comes only from a fault of the space; `NoMemory` is answered also where the names and
/// the values of soft links have more than 268,435,456 bytes together.
pub fn open_tree<V: Space>(alloc: Global, blocks: &mut Blocks<V>) -> Result<ObjectTree, TreeStop>
    requires stands { V.Stands (space_of blocks.old) }
    requires empty { Keeps V.view blocks.old [] }
    requires first { ((V.view (space_of blocks.old)).regions class.Super).start ≡ 0 }
    // The tree is the one that the bytes hold within the limits, and its blocks are in the catalogue.
    ensures opened { IsTrue V.tells → IfOk result (λ kept. (o : IsOpened (array_of V.view blocks.old)
        (bounds_of (V.view (space_of blocks.old)) None) kept) × Keeps V.view blocks.new (file_blocks o)) }
    // What is refused is shown by the bytes.
    ensures refused { IsTrue V.tells → IfErr result (λ stop. IfSome (refusal_of stop)
        (IsFileRefused (array_of V.view blocks.old) (bounds_of (V.view (space_of blocks.old)) None))) }
    // A tree that is held within the limits is refused by no line.
    ensures complete { IsTrue V.tells → (s : Superblock) (g : GroupAt) (ls : FullLinks)
        (h : HoldsFull (array_of V.view blocks.old) (bounds_of (V.view (space_of blocks.old)) None) s g ls)
        → IsWithinLimits (array_of V.view blocks.old) (all_blocks s h.driver (Group g ls)) (Group g ls)
        → IfErr result (λ stop. refusal_of stop ≡ None) }
    ensures sound { IfOk result IsSoundTree }
    ensures alike { V.Alike (space_of blocks.old) (space_of blocks.new) }
    ensures listed { OnOk result ((met : List Block) × Keeps V.view blocks.new met) }
    ensures failed { IsErrOf result Stop.Failed
        → OneRose (V.faults (space_of blocks.old)) (V.faults (space_of blocks.new)) }
    ensures calm { ¬ IsErrOf result Stop.Failed
        → V.faults (space_of blocks.new) ≡ V.faults (space_of blocks.old) }
{
    match read_superblock(alloc, blocks) {
        Ok(superblock) => open_root(alloc, blocks, superblock),
        Err(stop) => Err(stop),
    }
}
