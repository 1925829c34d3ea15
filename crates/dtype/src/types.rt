use crate::Dims;
use h5_base::Bytes;
use thiserror::Error;

/// How a fixed string shorter than its element is filled up (HDF5 File Format Specification 3.0, IV.A.2.d, "Datatype
/// Message", class 3).
#[derive(Clone, Copy, Debug, PartialEq, Eq)]
pub enum Pad {
    /// With NUL bytes, which may be none.
    Nul,
    /// With NUL bytes, at least one.
    Ended,
    /// With spaces, which may be none.
    Space,
}

/// The type of the elements of a dataset. One that a file can hold is an integer of 1, 2, 4 or 8 bytes or a string of
/// 1 to 65,535.
#[derive(Clone, Copy, Debug, PartialEq, Eq)]
pub enum ElemType {
    /// An integer of `size` bytes, signed or not, its high byte first where it is `big`.
    Int { size: u8, signed: bool, big: bool },
    /// A string of `size` bytes.
    Text { size: u32, pad: Pad },
}

/// The sizes of a dataset and, where they are given, the greatest that they may become. A maximum of 2^64 - 1 is
/// unlimited.
#[derive(Debug, Drop)]
pub struct Shape {
    pub dims: Dims,
    pub max: Option<Dims>,
}

/// A value that an element may hold: a number or a text.
#[derive(Debug, Drop)]
pub enum Value {
    Num(i128),
    Text(Bytes),
}

/// Why a part of an object header gives no value.
#[derive(Clone, Copy, Debug, PartialEq, Eq, Error)]
pub enum PartStop {
    /// The bytes spell nothing that is supported.
    #[error("unsupported")]
    Other,
    #[error("out of memory")]
    NoMemory,
}

/// Why a value has no bytes of a type.
#[derive(Clone, Copy, Debug, PartialEq, Eq, Error)]
pub enum ValueStop {
    /// The type can't hold the value.
    #[error("value out of the type's range")]
    WrongValue,
    #[error("out of memory")]
    NoMemory,
}
