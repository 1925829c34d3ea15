ghost use Rattle.std.specs.Prelude.{◌≡◌, ◌+◌, ◌*◌, ◌≤◌, ◌<◌, ◌^◌, ◌↔◌, IfOk, IsTrue, length, take};
ghost use Rattle.std.specs.Option.{SomeIff};
ghost use Rattle.header_codec.specs.declared.types.Layout.{Layout};
ghost use Rattle.header_codec.specs.Layouts.{IsContiguous, HasChunkHead, IsChunk, IsOfShape, SpellsLayout, u32s_at};
ghost use Rattle.dtype.specs.Products.{product};
ghost use Rattle.header_codec.specs.Layouts.{dimensionality};

use crate::types::Layout;
use dtype::{Dims, PartStop};
use h5_base::{NoMemory, u32_of, u64_of};
use std::alloc::Global;

/// Reads the layout whose message begins the bytes: of version 3, contiguous, or chunked with 1 to 32 dimensions, no
/// size of 0 and at most 2^32 - 1 bytes in a chunk. What follows it isn't looked at. (HDF5 File Format Specification
/// 3.0, IV.A.2.i.)
pub fn read_layout(alloc: Global, bytes: &[u8]) -> Result<Layout, PartStop>
    // What is read is spelled.
    ensures found { IfOk result (λ l. SpellsLayout l bytes.now) }
    // The refusal comes exactly where nothing is spelled.
    ensures other { (result ≡ Err PartStop.Other) ↔ ((l : Layout) → SpellsLayout l bytes.now → ⊥) }
{
    if is_contiguous(bytes) {
        return Ok(Layout::Contiguous {
            at: u64_of(bytes, 2),
            len: u64_of(bytes, 10),
        });
    }
    if !has_chunk_head(bytes) {
        return Err(PartStop::Other);
    }
    let count = usize::from(bytes[2]);
    let room = read_sizes(bytes, 11, count);
    let sizes = &room[..count];
    if !is_chunk(sizes) {
        return Err(PartStop::Other);
    }
    match Dims::from_slice(alloc, sizes) {
        Ok(sizes) => Ok(Layout::Chunked {
            tree_at: u64_of(bytes, 3),
            sizes,
        }),
        Err(NoMemory) => Err(PartStop::NoMemory),
    }
}

fn is_contiguous(bytes: &[u8]) -> bool
    ensures { IsTrue result ↔ IsContiguous bytes.now }
{
    bytes.len() >= 18 && bytes[0] == 3 && bytes[1] == 1
}

fn has_chunk_head(bytes: &[u8]) -> bool
    ensures { IsTrue result ↔ HasChunkHead bytes.now }
{
    bytes.len() >= 11
        && bytes[0] == 3
        && bytes[1] == 2
        && bytes[2] <= 33
        && bytes.len() - 11 >= 4 * usize::from(bytes[2])
}

// So many numbers of 4 bytes from `at` on.
fn read_sizes(bytes: &[u8], at: usize, count: usize) -> [u64; 33]
    requires few { count ≤ 33 }
    requires inside { at + 4 * count ≤ length bytes.now }
    ensures { take count result ≡ u32s_at bytes.now at count }
{
    let mut sizes = [0; 33];
    for i in 0..count {
        sizes[i] = u64::from(u32_of(bytes, at + 4 * i));
    }
    sizes
}

/// Whether these are the sizes of a chunk: of 1 to 32 dimensions and then of an element, none of them 0, and of at most
/// 2^32 - 1 bytes together.
pub fn is_chunk(sizes: &[u64]) -> bool
    ensures { IsTrue result ↔ IsChunk sizes.now }
{
    if sizes.len() < 2 || sizes.len() > 33 {
        return false;
    }
    let mut bytes = 1;
    for size in sizes {
        match times(bytes, *size) {
            Some(more) => bytes = more,
            None => return false,
        }
    }
    true
}

// So many times so many bytes, where that is some and few enough.
fn times(bytes: u64, size: u64) -> Option<u64>
    ensures { SomeIff result ((1 ≤ size) × (bytes * size < 2 ^ 32)) (bytes * size) }
{
    match bytes.checked_mul(size) {
        Some(more) if size > 0 && more < 0x1_0000_0000 => Some(more),
        _ => None,
    }
}

impl Layout {
    /// Whether a dataset of this rank whose elements have so many bytes can be stored so: a chunk has as many
    /// dimensions as the dataset and the size of its elements. A dataset for which that doesn't hold isn't read.
    pub fn is_of_shape(&self, rank: usize, size: u32) -> bool
        ensures { IsTrue result ↔ IsOfShape rank size self.now }
    {
        match self {
            Layout::Contiguous { .. } => true,
            Layout::Chunked { sizes, .. } => {
                let sizes = sizes.as_slice();
                sizes.len() > rank && sizes.len() - 1 == rank && sizes[rank] == u64::from(size)
            }
        }
    }
}
