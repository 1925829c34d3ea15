ghost use Rattle.std.specs.Prelude.{◌≡◌, ◌+◌, ◌*◌, ◌≤◌, length, map, All, IfOk, IsTrue, ◌↔◌};
ghost use Rattle.std.specs.Int.{w64, to_le_bytes};
ghost use Rattle.h5_base.specs.Fields.{Puts};
ghost use Rattle.node_codec.specs.Cells.{woven};
ghost use Rattle.node_codec.specs.TreeHead.{IsU64};
ghost use Rattle.node_codec.specs.ChunkNodes.{SpellsChunkNode, FitsChunkNode, IsWholeElement, HasRank, KeyInRange};
ghost use Rattle.node_codec.specs.ChunkNodes.{chunk_key_of, chunk_key_len, key_cells, chunk_key_bytes, chunk_node_len};
ghost use Rattle.node_codec.specs.ChunkNodes.{chunk_node_bytes};

use crate::tree_head::{is_tree_node, put_tree_head};
use dtype::Dims;
use h5_base::{
    CodecStop, List, NoMemory, put_u32, put_u64, put_u64s, read_u64s, u16_of, u32_of, u64_of,
};
use std::alloc::Global;

/// A key of a chunk index: the first chunk under the child that follows it, or a bound above the chunks before it.
#[derive(Debug, Drop)]
pub struct ChunkKey {
    /// The bytes of the chunk as it is stored.
    pub bytes: u32,
    /// The filters of the pipeline that this chunk skipped, a bit each.
    pub mask: u32,
    /// The index of the chunk's first element, one number a dimension of the dataspace.
    pub offset: Dims,
}

/// A node of the B-tree of a dataset's chunks (HDF5 File Format Specification 3.0, III.A.1). It has one key more than
/// it has children.
#[derive(Debug, Drop)]
pub struct ChunkNode {
    /// 0 where the children are chunks, else one more than the children's level.
    pub level: u8,
    /// The address of the node to the left on this level, all ones where there is none.
    pub left: u64,
    /// The address of the node to the right on this level, all ones where there is none.
    pub right: u64,
    /// Key i tells of the first chunk under child i, and the last key lies above every chunk under the last child.
    pub keys: List<ChunkKey>,
    /// Addresses of chunks, or of nodes of the level below.
    pub children: List<u64>,
}

/// The bytes of a key of this rank.
fn key_size(rank: u8) -> usize
    ensures { result ≡ chunk_key_len rank }
{
    16 + 8 * rank as usize
}

/// The bytes of the block of a chunk node that has room for 2k children and keys of this rank, 2616 for a K of 32 and
/// rank 2.
pub fn chunk_node_size(k: u16, rank: u8) -> usize
    ensures { result ≡ chunk_node_len k rank }
{
    let k = k as usize;
    24 + (2 * k + 1) * key_size(rank) + 16 * k
}

/// The key that the cell holds.
fn read_key(alloc: Global, cell: &[u8], rank: u8) -> Result<ChunkKey, NoMemory>
    requires { length cell.now ≡ chunk_key_len rank }
    ensures { IfOk result (λ key. key ≡ chunk_key_of rank cell.now) }
{
    let offset = read_u64s(alloc, cell, 8, 8, rank as usize)?;
    Ok(ChunkKey {
        bytes: u32_of(cell, 0),
        mask: u32_of(cell, 4),
        offset: Dims::from_slice(alloc, offset.as_slice())?,
    })
}

/// The first `count` keys of a node.
fn read_keys(alloc: Global, bytes: &[u8], rank: u8, count: usize) -> Result<Vec<ChunkKey>, NoMemory>
    requires { 24 + (chunk_key_len rank + 8) * count ≤ length bytes.now + 8 }
    ensures { IfOk result (λ v. v.items ≡ map (chunk_key_of rank) (key_cells rank count bytes.now)) }
{
    let size = key_size(rank);
    let mut keys = Vec::new(alloc);
    for i in 0..count {
        let at = 24 + (size + 8) * i;
        match keys.push(read_key(alloc, &bytes[at..at + size], rank)?) {
            Ok(()) => {}
            Err(_) => return Err(NoMemory),
        }
    }
    Ok(keys)
}

/// Whether the offset within the element is 0 in the first `count` keys.
fn are_whole_elements(bytes: &[u8], rank: u8, count: usize) -> bool
    requires { 24 + (chunk_key_len rank + 8) * count ≤ length bytes.now + 8 }
    ensures { IsTrue result ↔ All (IsWholeElement rank) (key_cells rank count bytes.now) }
{
    let size = key_size(rank);
    for i in 0..count {
        if u64_of(bytes, 24 + (size + 8) * i + size - 8) != 0 {
            return false;
        }
    }
    true
}

/// The node that the whole block spells, which has room for 2k children and keys of this rank. `NotThis` comes exactly
/// where it spells none: another length, signature or node type, more than 2k entries used, or an offset within the
/// element other than 0 in a key beside a child. In the key behind the last child that offset may be anything, and no
/// value holds it. Cells past the used ones aren't looked at.
pub fn read_chunk_node(
    alloc: Global,
    bytes: &[u8],
    k: u16,
    rank: u8,
) -> Result<ChunkNode, CodecStop>
    // What is read is spelled.
    ensures found { IfOk result (λ n. SpellsChunkNode k rank n bytes.now) }
    ensures fits { IfOk result (λ n. FitsChunkNode k rank n) }
    // What is spelled is not refused.
    ensures only { result ≡ Err CodecStop.NotThis → (n : ChunkNode) → ¬ SpellsChunkNode k rank n bytes.now }
{
    if !is_tree_node(bytes, 1, k, chunk_node_size(k, rank)) {
        return Err(CodecStop::NotThis);
    }
    let used = u16_of(bytes, 6) as usize;
    if !are_whole_elements(bytes, rank, used) {
        return Err(CodecStop::NotThis);
    }
    let Ok(keys) = read_keys(alloc, bytes, rank, used + 1) else {
        return Err(CodecStop::NoMemory);
    };
    let size = key_size(rank);
    let Ok(children) = read_u64s(alloc, bytes, 24 + size, size + 8, used) else {
        return Err(CodecStop::NoMemory);
    };
    Ok(ChunkNode {
        level: bytes[5],
        left: u64_of(bytes, 8),
        right: u64_of(bytes, 16),
        keys: List::from_vec(keys),
        children: List::from_vec(children),
    })
}

/// Writes a key of these parts from `at` on, with 0 for the offset within the element; the rest stays.
fn put_parts(out: &mut [u8], at: usize, bytes: u32, mask: u32, offset: &[u64])
    requires { at + chunk_key_len (length offset.now) ≤ length out.old }
    ensures put { Puts out.old out.new at (chunk_key_bytes
        (record { bytes = bytes; mask = mask; offset = offset.now })) }
    ensures range { KeyInRange (record { bytes = bytes; mask = mask; offset = offset.now }) }
{
    put_u32(out, at, bytes);
    put_u32(out, at + 4, mask);
    put_u64s(out, at + 8, offset);
    put_u64(out, at + 8 + 8 * offset.len(), 0);
}

/// Writes a key from `at` on; the rest stays.
fn put_key(out: &mut [u8], at: usize, key: &ChunkKey)
    requires { at + chunk_key_len (length key.now.offset) ≤ length out.old }
    ensures put { Puts out.old out.new at (chunk_key_bytes key.now) }
    ensures range { KeyInRange key.now }
{
    put_parts(out, at, key.bytes, key.mask, key.offset.as_slice());
}

/// Writes key 0, child 0, and so on to the key behind the last child, from `at` on; the rest stays.
fn put_chunks(out: &mut [u8], at: usize, rank: u8, keys: &[ChunkKey], children: &[u64])
    requires one_more { length keys.now ≡ length children.now + 1 }
    requires ranks { All (HasRank rank) keys.now }
    requires room { at + (chunk_key_len rank + 8) * length children.now + chunk_key_len rank ≤ length out.old }
    ensures put { Puts out.old out.new at (woven (map chunk_key_bytes keys.now) (map (to_le_bytes w64) children.now)) }
    ensures keys { All KeyInRange keys.now }
    ensures children { All IsU64 children.now }
{
    let size = key_size(rank);
    for (i, child) in children.iter().enumerate() {
        put_key(out, at + (size + 8) * i, &keys[i]);
        put_u64(out, at + (size + 8) * i + size, *child);
    }
    put_key(out, at + (size + 8) * children.len(), &keys[children.len()]);
}

/// Writes the node into its whole block, which has room for 2k children and keys of this rank; unused cells are 0, and
/// so is the offset within the element in each key. It takes no memory.
pub fn write_chunk_node(n: &ChunkNode, k: u16, rank: u8, out: &mut [u8])
    requires k { k ≤ 1024 }
    requires counts { FitsChunkNode k rank n.now }
    requires room { length out.old ≡ chunk_node_len k rank }
    ensures bytes { out.new ≡ chunk_node_bytes k rank n.now }
    // What is written is read again.
    ensures spelled { SpellsChunkNode k rank n.now out.new }
{
    out.fill(0);
    put_tree_head(out, 1, n.level, n.children.len() as u16, n.left, n.right);
    put_chunks(out, 24, rank, n.keys.as_slice(), n.children.as_slice());
}
