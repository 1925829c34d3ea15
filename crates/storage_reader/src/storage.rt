ghost use Rattle.std.specs.Prelude.{◌≡◌, ◌≢◌, ◌&&◌, not, ◌==◌, ◌*◌, [], if◌then◌else◌, List};
ghost use Rattle.std.specs.Prelude.{IsTrue, IfErr, OnOk, IsErrOf, length};
ghost use Rattle.h5_base.specs.Fields.{undefined};
ghost use Rattle.outside.specs.Blocks.{Block, IsPlacedRefused, placed};
ghost use Rattle.outside.specs.Causes.{OneRose};
ghost use Rattle.h5_base.specs.declared.kinds.BlockKind.TheVariants.{Raw};
ghost use Rattle.dtype.specs.Products.{FitsFile, product};
ghost use Rattle.dtype.specs.Types.{size_of};
ghost use Rattle.header_codec.specs.Layouts.{IsOfShape};
ghost use Rattle.header_codec.specs.Written.{IsLayout};
ghost use Rattle.block_space.specs.Blocks.{Keeps, Refuses, Takes, array_of, space_of};
ghost use Rattle.file_model.specs.Objects.{DataInfo};
ghost use Rattle.file_model.specs.Chunks.{Chunk, IsStoredBy};
ghost use Rattle.file_model.specs.RefusedChunks.{IsStorageRefused};
ghost use Rattle.storage_reader.specs.Elements.{AreOf};

use crate::form::Form;
use crate::nodes::adopt_index;
use block_space::Blocks;
use dtype::{ElemType, Shape};
use h5_base::{BlockKind, Stop};
use header_codec::Layout;
use outside::Space;
use std::alloc::Global;

// No address (HDF5 File Format Specification 3.0, II).
const UNDEFINED: u64 = 0xFFFF_FFFF_FFFF_FFFF;

/// The elements of a dataset: how many of which type, where they are stored, and whether they pass through filters.
#[derive(Clone, Copy)]
pub struct Elements<'a> {
    pub shape: &'a Shape,
    pub elem: ElemType,
    pub layout: &'a Layout,
    pub filtered: bool,
}

/// Takes what is stored of a dataset into the catalogue: the one block of a contiguous dataset, or the nodes and chunks
/// of a chunk index, from left to right (HDF5 File Format Specification 3.0, III.A.1 and IV.A.2.i). An undefined
/// address has no block, and a filtered dataset's index isn't read. `Malformed` tells a block that leaves its region's
/// end, or a node that spells none, isn't of the level below its parent's, or whose chunks have other bytes or offsets
/// than the dataset and the keys want; `LinkedTwice`, `Overlap` and `TooMany` tell what a block does beside those met
/// before. `Failed` is a fault of the space.
pub fn adopt_storage<V: Space>(
    alloc: Global,
    blocks: &mut Blocks<V>,
    elements: Elements,
    k: u16,
) -> Result<(), Stop>
    requires stands { V.Stands (space_of blocks.old) }
    requires listed { (met : List Block) × Keeps V.view blocks.old met }
    requires fits { FitsFile elements.shape.now.dims (size_of elements.elem) }
    requires stored { IsOfShape (length elements.shape.now.dims) (size_of elements.elem) elements.layout.now }
    requires layout { IsLayout elements.layout.now }
    ensures found { IsTrue V.tells → OnOk result ((i : DataInfo) → AreOf i elements.entry
        → Takes V.view blocks.old blocks.new
        (λ bs. (cs : List Chunk) × IsStoredBy (array_of V.view blocks.old) k i i.layout cs bs)) }
    ensures refused { IsTrue V.tells → IfErr result (λ stop. (i : DataInfo) → AreOf i elements.entry
        → Refuses V.view blocks.old (λ e. IsStorageRefused (array_of V.view blocks.old) e k i) stop) }
    ensures alike { V.Alike (space_of blocks.old) (space_of blocks.new) }
    ensures listed { OnOk result ((met : List Block) × Keeps V.view blocks.new met) }
    ensures failed { IsErrOf result Stop.Failed
        → OneRose (V.faults (space_of blocks.old)) (V.faults (space_of blocks.new)) }
    ensures calm { ¬ IsErrOf result Stop.Failed
        → V.faults (space_of blocks.new) ≡ V.faults (space_of blocks.old) }
{
    match elements.layout {
        Layout::Contiguous { at, .. } => {
            adopt_elements(blocks, elements.shape, elements.elem, *at)
        }
        Layout::Chunked { tree_at, sizes } => {
            if !is_read(*tree_at, elements.filtered) {
                return Ok(());
            }
            let form = Form::new(alloc, sizes, k)?;
            adopt_index(alloc, blocks, *tree_at, &form)
        }
    }
}

// Whether a chunk index is read.
fn is_read(tree_at: u64, filtered: bool) -> bool
    ensures { result ≡ (not (tree_at == undefined) && not filtered) }
{
    tree_at != UNDEFINED && !filtered
}

// Takes the block of a contiguous dataset's elements into the catalogue, where it has an address and isn't empty.
fn adopt_elements<V: Space>(
    blocks: &mut Blocks<V>,
    shape: &Shape,
    elem: ElemType,
    at: u64,
) -> Result<(), Stop>
    requires stands { V.Stands (space_of blocks.old) }
    requires fits { FitsFile shape.now.dims (size_of elem) }
    ensures found { OnOk result (Takes V.view blocks.old blocks.new
        (λ bs. bs ≡ (if at == undefined then [] else placed at (product shape.now.dims * size_of elem)))) }
    ensures refused { IfErr result (λ stop. (at ≢ undefined) × Refuses V.view blocks.old
        (λ e met. IsPlacedRefused e met at (product shape.now.dims * size_of elem) Raw) stop) }
    ensures no_fault { ¬ IsErrOf result Stop.Failed }
    ensures space { space_of blocks.new ≡ space_of blocks.old }
{
    if at == UNDEFINED {
        return Ok(());
    }
    let len = shape.dims.byte_len(elem.size()).unwrap();
    blocks.adopt_placed(at, len, BlockKind::Raw)
}
