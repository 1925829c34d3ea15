ghost use Rattle.std.specs.Prelude.{◌≡◌, ◌<◌, ◌∷◌, [], ℕ, List, IsTrue, IfOk, IfErr, OnOk, IsErrOf};
ghost use Rattle.outside.specs.Blocks.{Block};
ghost use Rattle.outside.specs.Causes.{OneRose};
ghost use Rattle.block_space.specs.Blocks.{Keeps, Refuses, Takes, array_of, space_of};
ghost use Rattle.node_codec.specs.ChunkNodes.{FitsChunkNode};
ghost use Rattle.storage_reader.specs.Ends.{Spans};
ghost use Rattle.storage_reader.specs.Forms.{IsForm};
ghost use Rattle.storage_reader.specs.Nodes.{AreUnder, IsIndexAt, IsIndexRefused, IsNodeAt, IsUnderRefused};
ghost use Rattle.storage_reader.specs.Nodes.{IsWholeIndex, IsWholeRefused, node_block};

use crate::child::child_of;
use crate::chunks::adopt_chunks;
use crate::ends::{Ends, ends_of, is_in_place, join};
use crate::form::Form;
use block_space::Blocks;
use h5_base::{BlockKind, CodecStop, Stop};
use node_codec::{ChunkNode, chunk_node_size, read_chunk_node};
use outside::Space;
use std::alloc::Global;

// Takes the block of a node into the catalogue, and reads the node.
fn take_node<V: Space>(
    alloc: Global,
    blocks: &mut Blocks<V>,
    at: u64,
    form: &Form,
) -> Result<ChunkNode, Stop>
    requires stands { V.Stands (space_of blocks.old) }
    ensures found { IsTrue V.tells → IfOk result (IsNodeAt (array_of V.view blocks.old) form.now at) }
    ensures fits { IfOk result (FitsChunkNode form.now.k form.now.rank) }
    ensures kept { OnOk result
        (Takes V.view blocks.old blocks.new (λ bs. bs ≡ node_block form.now at ∷ [])) }
    ensures refused { IsTrue V.tells → IfErr result (λ stop. (level : ℕ)
        → Refuses V.view blocks.old (IsIndexRefused (array_of V.view blocks.old) form.now level at) stop) }
    ensures alike { V.Alike (space_of blocks.old) (space_of blocks.new) }
    ensures failed { IsErrOf result Stop.Failed
        → OneRose (V.faults (space_of blocks.old)) (V.faults (space_of blocks.new)) }
    ensures calm { ¬ IsErrOf result Stop.Failed
        → V.faults (space_of blocks.new) ≡ V.faults (space_of blocks.old) }
{
    let size = chunk_node_size(form.k, form.rank);
    let bytes = blocks.adopt_bytes(alloc, at, size, BlockKind::Tree)?;
    match read_chunk_node(alloc, bytes.as_slice(), form.k, form.rank) {
        Ok(node) => Ok(node),
        Err(CodecStop::NotThis) => Err(Stop::malformed(at, BlockKind::Tree)),
        Err(CodecStop::NoMemory) => Err(Stop::NoMemory),
    }
}

// Takes all that stands under a node into the catalogue: chunks under one of level 0, else the nodes of the level below
// with what stands under them.
#[cycle(index)]
fn adopt_children<V: Space>(
    alloc: Global,
    blocks: &mut Blocks<V>,
    at: u64,
    node: &ChunkNode,
    form: &Form,
) -> Result<Option<Ends>, Stop>
    requires stands { V.Stands (space_of blocks.old) }
    requires listed { (met : List Block) × Keeps V.view blocks.old met }
    requires form { IsForm form.now }
    requires node { FitsChunkNode form.now.k form.now.rank node.now }
    ensures found { IsTrue V.tells → IfOk result (λ ends. Takes V.view blocks.old blocks.new
        (Spans (AreUnder (array_of V.view blocks.old) form.now node.now) ends)) }
    ensures refused { IsTrue V.tells → IfErr result (Refuses V.view blocks.old
        (IsUnderRefused (array_of V.view blocks.old) form.now at node.now)) }
    ensures alike { V.Alike (space_of blocks.old) (space_of blocks.new) }
    ensures listed { OnOk result ((met : List Block) × Keeps V.view blocks.new met) }
    ensures failed { IsErrOf result Stop.Failed
        → OneRose (V.faults (space_of blocks.old)) (V.faults (space_of blocks.new)) }
    ensures calm { ¬ IsErrOf result Stop.Failed
        → V.faults (space_of blocks.new) ≡ V.faults (space_of blocks.old) }
{
    if node.level > 0 {
        return adopt_nodes(alloc, blocks, at, node, form);
    }
    adopt_chunks(blocks, at, node, form)?;
    Ok(ends_of(alloc, node)?)
}

// Takes the nodes under a node into the catalogue, from left to right, each with all that stands under it.
#[cycle(index)]
fn adopt_nodes<V: Space>(
    alloc: Global,
    blocks: &mut Blocks<V>,
    at: u64,
    node: &ChunkNode,
    form: &Form,
) -> Result<Option<Ends>, Stop>
    requires stands { V.Stands (space_of blocks.old) }
    requires listed { (met : List Block) × Keeps V.view blocks.old met }
    requires form { IsForm form.now }
    requires node { FitsChunkNode form.now.k form.now.rank node.now }
    requires level { 0 < node.now.level }
    ensures found { IsTrue V.tells → IfOk result (λ ends. Takes V.view blocks.old blocks.new
        (Spans (AreUnder (array_of V.view blocks.old) form.now node.now) ends)) }
    ensures refused { IsTrue V.tells → IfErr result (Refuses V.view blocks.old
        (IsUnderRefused (array_of V.view blocks.old) form.now at node.now)) }
    ensures alike { V.Alike (space_of blocks.old) (space_of blocks.new) }
    ensures listed { OnOk result ((met : List Block) × Keeps V.view blocks.new met) }
    ensures failed { IsErrOf result Stop.Failed
        → OneRose (V.faults (space_of blocks.old)) (V.faults (space_of blocks.new)) }
    ensures calm { ¬ IsErrOf result Stop.Failed
        → V.faults (space_of blocks.new) ≡ V.faults (space_of blocks.old) }
{
    let mut before = None;
    for i in 0..node.children.len() {
        let child = child_of(node, i);
        let here = adopt_node(alloc, blocks, child.at, node.level - 1, form)?;
        if !is_in_place(node, i, child, &before, &here) {
            return Err(Stop::malformed(at, BlockKind::Tree));
        }
        before = join(before, here);
    }
    Ok(before)
}

// Takes a node of this level into the catalogue, and all that stands under it.
#[cycle(index)]
fn adopt_node<V: Space>(
    alloc: Global,
    blocks: &mut Blocks<V>,
    at: u64,
    level: u8,
    form: &Form,
) -> Result<Option<Ends>, Stop>
    requires stands { V.Stands (space_of blocks.old) }
    requires listed { (met : List Block) × Keeps V.view blocks.old met }
    requires form { IsForm form.now }
    ensures found { IsTrue V.tells → IfOk result (λ ends. Takes V.view blocks.old blocks.new
        (Spans (IsIndexAt (array_of V.view blocks.old) form.now level at) ends)) }
    ensures refused { IsTrue V.tells → IfErr result (Refuses V.view blocks.old
        (IsIndexRefused (array_of V.view blocks.old) form.now level at)) }
    ensures alike { V.Alike (space_of blocks.old) (space_of blocks.new) }
    ensures listed { OnOk result ((met : List Block) × Keeps V.view blocks.new met) }
    ensures failed { IsErrOf result Stop.Failed
        → OneRose (V.faults (space_of blocks.old)) (V.faults (space_of blocks.new)) }
    ensures calm { ¬ IsErrOf result Stop.Failed
        → V.faults (space_of blocks.new) ≡ V.faults (space_of blocks.old) }
{
    let node = take_node(alloc, blocks, at, form)?;
    if node.level != level {
        return Err(Stop::malformed(at, BlockKind::Tree));
    }
    adopt_children(alloc, blocks, at, &node, form)
}

// Takes a chunk index of any level into the catalogue.
pub(crate) fn adopt_index<V: Space>(
    alloc: Global,
    blocks: &mut Blocks<V>,
    at: u64,
    form: &Form,
) -> Result<(), Stop>
    requires stands { V.Stands (space_of blocks.old) }
    requires listed { (met : List Block) × Keeps V.view blocks.old met }
    requires form { IsForm form.now }
    ensures found { IsTrue V.tells → OnOk result (Takes V.view blocks.old blocks.new
        (IsWholeIndex (array_of V.view blocks.old) form.now at)) }
    ensures refused { IsTrue V.tells → IfErr result (Refuses V.view blocks.old
        (IsWholeRefused (array_of V.view blocks.old) form.now at)) }
    ensures alike { V.Alike (space_of blocks.old) (space_of blocks.new) }
    ensures listed { OnOk result ((met : List Block) × Keeps V.view blocks.new met) }
    ensures failed { IsErrOf result Stop.Failed
        → OneRose (V.faults (space_of blocks.old)) (V.faults (space_of blocks.new)) }
    ensures calm { ¬ IsErrOf result Stop.Failed
        → V.faults (space_of blocks.new) ≡ V.faults (space_of blocks.old) }
{
    let node = take_node(alloc, blocks, at, form)?;
    adopt_children(alloc, blocks, at, &node, form)?;
    Ok(())
}
