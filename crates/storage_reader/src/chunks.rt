ghost use Rattle.std.specs.Prelude.{◌≡◌, ◌+◌, ◌∷◌, [], List, IfErr, IsErrOf, OnOk, IsTrue, length, false};
ghost use Rattle.outside.specs.Blocks.{Block};
ghost use Rattle.block_space.specs.Blocks.{Refuses, Takes, array_of, space_of};
ghost use Rattle.node_codec.specs.ChunkNodes.{FitsChunkNode};
ghost use Rattle.file_model.specs.Chunks.{AreAscending, Chunk, comes_before};
ghost use Rattle.file_model.specs.RefusedChunks.{IsChunkRefused};
ghost use Rattle.storage_reader.specs.Forms.{IsForm};
ghost use Rattle.storage_reader.specs.Nodes.{AreUnder, IsUnderRefused, child_at};

use crate::child::child_of;
use crate::ends::comes_before;
use crate::form::{Form, are_multiples};
use block_space::Blocks;
use h5_base::{BlockKind, Stop};
use node_codec::{ChunkKey, ChunkNode};
use outside::Space;

// Takes a chunk into the catalogue, and looks whether its key tells of this form.
fn adopt_chunk<V: Space>(
    blocks: &mut Blocks<V>,
    node: u64,
    key: &ChunkKey,
    at: u64,
    form: &Form,
) -> Result<(), Stop>
    requires stands { V.Stands (space_of blocks.old) }
    requires form { IsForm form.now }
    requires rank { length key.now.offset ≡ form.now.rank }
    ensures found { OnOk result (Takes V.view blocks.old blocks.new (child_at (array_of V.view blocks.old) form.now 0
        key.now at (record { offset = key.now.offset; at = at } ∷ []))) }
    ensures refused { IfErr result (Refuses V.view blocks.old
        (λ e met r. IsChunkRefused e form.now.rank form.now.sizes node met key.now at r)) }
    ensures no_fault { ¬ IsErrOf result Stop.Failed }
    ensures space { space_of blocks.new ≡ space_of blocks.old }
{
    blocks.adopt(at, form.bytes, BlockKind::Raw)?;
    if u64::from(key.bytes) != form.bytes {
        return Err(Stop::malformed(node, BlockKind::Tree));
    }
    if !are_multiples(form.sizes.as_slice(), key.offset.as_slice()) {
        return Err(Stop::malformed(node, BlockKind::Tree));
    }
    Ok(())
}

// Whether the key behind a chunk is above it, or is free, as it is behind the last.
fn is_above(is_last: bool, next: &ChunkKey, key: &ChunkKey) -> bool
    ensures yes { IsTrue result → is_last ≡ false → IsTrue (comes_before key.now.offset next.now.offset) }
    ensures no { result ≡ false → (is_last ≡ false) × (comes_before key.now.offset next.now.offset ≡ false) }
{
    is_last || comes_before(&key.offset, &next.offset)
}

// Takes the chunks under a node of level 0 into the catalogue, from left to right.
pub(crate) fn adopt_chunks<V: Space>(
    blocks: &mut Blocks<V>,
    at: u64,
    node: &ChunkNode,
    form: &Form,
) -> Result<(), Stop>
    requires stands { V.Stands (space_of blocks.old) }
    requires form { IsForm form.now }
    requires node { FitsChunkNode form.now.k form.now.rank node.now }
    requires level { node.now.level ≡ 0 }
    ensures found { OnOk result (Takes V.view blocks.old blocks.new (λ bs. (cs : List Chunk)
        × AreUnder (array_of V.view blocks.old) form.now node.now cs bs × AreAscending cs)) }
    ensures refused { IfErr result (Refuses V.view blocks.old
        (IsUnderRefused (array_of V.view blocks.old) form.now at node.now)) }
    ensures no_fault { ¬ IsErrOf result Stop.Failed }
    ensures space { space_of blocks.new ≡ space_of blocks.old }
{
    let count = node.children.len();
    for i in 0..count {
        let child = child_of(node, i);
        adopt_chunk(blocks, at, child.low, child.at, form)?;
        if !is_above(i + 1 == count, child.high, child.low) {
            return Err(Stop::malformed(at, BlockKind::Tree));
        }
    }
    Ok(())
}
