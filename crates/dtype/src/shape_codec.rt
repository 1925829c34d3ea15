ghost use Rattle.std.specs.Prelude.{◌≡◌, ◌+◌, ◌*◌, ◌≤◌, ◌↔◌, ◌++◌, List, ℕ, IfOk, OnOk, IsTrue, length};
ghost use Rattle.h5_base.specs.Fields.{u64s_at, u64s_bytes};
ghost use Rattle.dtype.specs.Shapes.{IsShape, IsSpace, SpellsShape, shape_of, shape_bytes, max_bytes, AreU64s};
ghost use Rattle.dtype.specs.Shapes.{MaxAreU64s};

use crate::{Dims, PartStop, Shape};
use h5_base::{Bytes, NoMemory, read_u64s};
use std::alloc::Global;

fn is_space(bytes: &[u8]) -> bool
    ensures { IsTrue result ↔ IsSpace bytes.now }
{
    bytes.len() >= 8
        && bytes[0] == 1
        && bytes[1] <= 32
        && bytes[2] / 2 % 2 == 0
        && 8 + 8 * usize::from(bytes[1]) * (1 + usize::from(bytes[2] % 2)) <= bytes.len()
}

/// So many sizes of 8 bytes from `at` on.
fn read_dims(alloc: Global, bytes: &[u8], at: usize, rank: usize) -> Result<Dims, NoMemory>
    requires { at + 8 * rank ≤ length bytes.now }
    ensures { IfOk result (λ d. d ≡ u64s_at bytes.now at 8 rank) }
{
    match read_u64s(alloc, bytes, at, 8, rank) {
        Ok(sizes) => Dims::from_slice(alloc, sizes.as_slice()),
        Err(NoMemory) => Err(NoMemory),
    }
}

/// The shape whose dataspace begins the bytes; `Other` where they begin with no dataspace of version 1, of rank at most
/// 32 and without permutation indices. What follows the dataspace isn't looked at (HDF5 File Format Specification 3.0,
/// IV.A.2.b). Whether a dataset of this shape is small enough depends on its elements: `Dims::byte_len`.
pub fn read_shape(alloc: Global, bytes: &[u8]) -> Result<Shape, PartStop>
    // What is read is spelled.
    ensures found { IfOk result (λ s. SpellsShape s bytes.now) }
    // The refusal comes exactly where nothing is spelled.
    ensures other { (result ≡ Err PartStop.Other) ↔ ((s : Shape) → SpellsShape s bytes.now → ⊥) }
{
    if !is_space(bytes) {
        return Err(PartStop::Other);
    }
    let rank = usize::from(bytes[1]);
    let dims = match read_dims(alloc, bytes, 8, rank) {
        Ok(dims) => dims,
        Err(NoMemory) => return Err(PartStop::NoMemory),
    };
    if bytes[2] % 2 == 0 {
        return Ok(Shape { dims, max: None });
    }
    match read_dims(alloc, bytes, 8 + 8 * rank, rank) {
        Ok(max) => Ok(Shape {
            dims,
            max: Some(max),
        }),
        Err(NoMemory) => Err(PartStop::NoMemory),
    }
}

fn append_sizes(bytes: &mut Vec<u8>, sizes: &[u64]) -> Result<(), NoMemory>
    ensures appended { OnOk result (bytes.new.items ≡ bytes.old.items ++ u64s_bytes sizes.now) }
    ensures fit { AreU64s sizes.now }
{
    for size in sizes {
        match bytes.extend_from_slice(&size.to_le_bytes()) {
            Ok(()) => {}
            Err(_) => return Err(NoMemory),
        }
    }
    Ok(())
}

fn append_max(bytes: &mut Vec<u8>, max: &Option<Dims>) -> Result<(), NoMemory>
    ensures appended { OnOk result (bytes.new.items ≡ bytes.old.items ++ max_bytes max.now) }
    ensures fit { MaxAreU64s max.now }
{
    match max {
        None => Ok(()),
        Some(sizes) => append_sizes(bytes, sizes.as_slice()),
    }
}

/// The dataspace of the shape, of version 1 and with maximum sizes only where the shape has them: 8 bytes and 8 more
/// for each size. Only a shape of at most 32 dimensions and as many maximum sizes as sizes is read again.
pub fn write_shape(alloc: Global, shape: &Shape) -> Result<Bytes, NoMemory>
    ensures bytes { IfOk result (λ b. b ≡ shape_bytes shape.now) }
    // What is written is read again as the same shape, also where more bytes follow.
    ensures spelled { IfOk result (λ b. IsShape shape.now → (rest : List ℕ) → SpellsShape shape.now (b ++ rest)) }
{
    let sizes = shape.dims.as_slice();
    let rank = (sizes.len() % 256) as u8;
    let mut bytes = match Vec::from_slice(
        alloc,
        &[1, rank, u8::from(shape.max.is_some()), 0, 0, 0, 0, 0],
    ) {
        Ok(bytes) => bytes,
        Err(_) => return Err(NoMemory),
    };
    append_sizes(&mut bytes, sizes)?;
    append_max(&mut bytes, &shape.max)?;
    Ok(Bytes::from_vec(bytes))
}
