ghost use Rattle.std.specs.Prelude.{◌≡◌, ◌<◌, ◌≤◌, ◌↔◌, ◌++◌, List, ℕ, IfOk, IfSome, IsTrue};
ghost use Rattle.dtype.specs.Types.{IsClass, IsElemType, IsInt, IsText, IsIntSize, IsTextSize, SpellsType, head_bytes};
ghost use Rattle.dtype.specs.Types.{int_of, pad_code, pad_of, size_of, text_of, type_bytes};

use crate::{ElemType, Pad};
use h5_base::{Bytes, NoMemory, u16_of, u32_of};
use std::alloc::Global;

impl ElemType {
    /// The bytes that an element has.
    pub fn size(self) -> u32
        ensures { result ≡ size_of self }
    {
        match self {
            ElemType::Int { size, .. } => u32::from(size),
            ElemType::Text { size, .. } => size,
        }
    }

    /// Whether a file can hold elements of this type.
    pub fn is_valid(self) -> bool
        ensures { IsTrue result ↔ IsElemType self }
    {
        match self {
            ElemType::Int { size, .. } => is_int_size(u32::from(size)),
            ElemType::Text { size, .. } => is_text_size(size),
        }
    }
}

fn is_int_size(size: u32) -> bool
    ensures { IsTrue result ↔ IsIntSize size }
{
    size == 1 || size == 2 || size == 4 || size == 8
}

fn is_text_size(size: u32) -> bool
    ensures { IsTrue result ↔ IsTextSize size }
{
    1 <= size && size <= 65_535
}

fn is_class(bytes: &[u8], class: u8, whole: usize) -> bool
    requires { 2 ≤ whole }
    ensures { IsTrue result ↔ IsClass bytes.now class whole }
{
    bytes.len() >= whole && bytes[0] % 16 == class && 1 <= bytes[0] / 16 && bytes[0] / 16 <= 3
}

fn is_int(bytes: &[u8]) -> bool
    ensures { IsTrue result ↔ IsInt bytes.now }
{
    is_class(bytes, 0, 12)
        && is_int_size(u32_of(bytes, 4))
        && bytes[1] / 2 % 4 == 0
        && u16_of(bytes, 8) == 0
        && u32::from(u16_of(bytes, 10)) == 8 * u32_of(bytes, 4)
}

fn is_text(bytes: &[u8]) -> bool
    ensures { IsTrue result ↔ IsText bytes.now }
{
    is_class(bytes, 3, 8)
        && is_text_size(u32_of(bytes, 4))
        && bytes[1] % 16 <= 2
        && bytes[1] / 16 <= 1
}

fn read_int(bytes: &[u8]) -> ElemType
    requires { IsInt bytes.now }
    ensures { result ≡ int_of bytes.now }
{
    ElemType::Int {
        size: u32_of(bytes, 4) as u8,
        signed: bytes[1] / 8 % 2 == 1,
        big: bytes[1] % 2 == 1,
    }
}

fn read_pad(code: u8) -> Pad
    ensures { result ≡ pad_of code }
{
    match code {
        0 => Pad::Ended,
        1 => Pad::Nul,
        _ => Pad::Space,
    }
}

/// The type of the elements whose datatype begins the bytes, none where they begin with no integer of 1, 2, 4 or 8
/// bytes and no fixed string. What follows the datatype isn't looked at, as it fills a message up to a multiple of 8
/// (HDF5 File Format Specification 3.0, IV.A.2.d).
pub fn read_type(bytes: &[u8]) -> Option<ElemType>
    // What is read is spelled.
    ensures found { IfSome result (λ t. SpellsType t bytes.now) }
    // What is spelled is read.
    ensures only { (t : ElemType) → SpellsType t bytes.now → result ≡ Some t }
{
    if is_int(bytes) {
        Some(read_int(bytes))
    } else if is_text(bytes) {
        Some(ElemType::Text {
            size: u32_of(bytes, 4),
            pad: read_pad(bytes[1] % 16),
        })
    } else {
        None
    }
}

fn pad_bits(pad: Pad) -> u8
    ensures { result ≡ pad_code pad }
{
    match pad {
        Pad::Ended => 0,
        Pad::Nul => 1,
        Pad::Space => 2,
    }
}

/// Version and class, the class bit field, the size.
fn head(class: u8, bits: u8, size: u32) -> [u8; 8]
    requires { class < 16 }
    ensures { result ≡ head_bytes class bits size }
{
    let [a, b, c, d] = size.to_le_bytes();
    [16 + class, bits, 0, 0, a, b, c, d]
}

fn int_bytes(size: u8, signed: bool, big: bool) -> [u8; 12]
    ensures { result ≡ type_bytes (ElemType.Int size signed big) }
{
    let [a, b, c, d, e, f, g, h] = head(0, u8::from(big) + 8 * u8::from(signed), u32::from(size));
    let [low, high] = (8 * u16::from(size)).to_le_bytes();
    [a, b, c, d, e, f, g, h, 0, 0, low, high]
}

/// The datatype of these elements, in version 1 and with character set ASCII: 12 bytes of an integer, 8 of a string. A
/// message that holds it is filled up to a multiple of 8 by who writes it.
pub fn write_type(alloc: Global, elem: &ElemType) -> Result<Bytes, NoMemory>
    ensures bytes { IfOk result (λ b. b ≡ type_bytes elem.now) }
    // What is written is read again as the same type, also where more bytes follow.
    ensures spelled { IfOk result (λ b. IsElemType elem.now → (rest : List ℕ) → SpellsType elem.now (b ++ rest)) }
{
    match *elem {
        ElemType::Int { size, signed, big } => {
            Bytes::from_slice(alloc, &int_bytes(size, signed, big))
        }
        ElemType::Text { size, pad } => Bytes::from_slice(alloc, &head(3, pad_bits(pad), size)),
    }
}
