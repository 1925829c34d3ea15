ghost use Rattle.std.specs.Prelude.{◌≡◌, ◌↔◌, IfOk, IsTrue};
ghost use Rattle.header_codec.specs.declared.types.Fill.{Fill};
ghost use Rattle.header_codec.specs.Fills.{IsFill, IsOfSize, SpellsFill, value_len};

use crate::types::Fill;
use dtype::PartStop;
use h5_base::{Bytes, NoMemory, u32_of};
use std::alloc::Global;

/// Reads the fill value whose message begins the bytes: of version 2, with an allocation time from 1 to 3 and a value
/// that is defined or not. What follows the value isn't looked at. (HDF5 File Format Specification 3.0, IV.A.2.f.)
pub fn read_fill(alloc: Global, bytes: &[u8]) -> Result<Fill, PartStop>
    // What is read is spelled.
    ensures found { IfOk result (λ f. SpellsFill f bytes.now) }
    // The refusal comes exactly where nothing is spelled.
    ensures other { (result ≡ Err PartStop.Other) ↔ ((f : Fill) → SpellsFill f bytes.now → ⊥) }
{
    if !is_fill(bytes) {
        return Err(PartStop::Other);
    }
    let len = value_len(bytes);
    if len == 0 {
        return Ok(Fill::Zeros);
    }
    match Bytes::from_slice(alloc, &bytes[8..8 + len]) {
        Ok(value) => Ok(Fill::Value(value)),
        Err(NoMemory) => Err(PartStop::NoMemory),
    }
}

fn is_fill(bytes: &[u8]) -> bool
    ensures { IsTrue result ↔ IsFill bytes.now }
{
    bytes.len() >= 4
        && bytes[0] == 2
        && 1 <= bytes[1]
        && bytes[1] <= 3
        && bytes[3] <= 1
        && (bytes[3] == 0 || bytes.len() >= 8 && bytes.len() - 8 >= u32_of(bytes, 4) as usize)
}

fn value_len(bytes: &[u8]) -> usize
    requires { IsFill bytes.now }
    ensures { result ≡ value_len bytes.now }
{
    if bytes[3] == 0 {
        0
    } else {
        u32_of(bytes, 4) as usize
    }
}

impl Fill {
    /// Whether elements of so many bytes can have this fill value. A dataset whose fill value has another size isn't
    /// read.
    pub fn is_of_size(&self, size: u32) -> bool
        ensures { IsTrue result ↔ IsOfSize size self.now }
    {
        match self {
            Fill::Zeros => true,
            Fill::Value(value) => value.len() == size as usize,
        }
    }
}
