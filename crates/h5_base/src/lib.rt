//! What every layer speaks of: extents and regions of addresses, names, lists of bytes, and little-endian fields.
#![tactic(auto)]

mod bytes;
mod comment;
mod extent;
mod fields;
mod kinds;
mod link_name;
mod list;
mod name;
mod numbers;
mod refusal;

pub use bytes::Bytes;
pub use comment::{Comment, CommentStop};
pub use extent::{Extent, MemClass, Region};
pub use fields::{
    get_u16, get_u32, get_u64, put_bytes, put_u8, put_u16, put_u32, put_u64, u16_of, u32_of, u64_of,
};
pub use kinds::{BlockKind, What};
pub use link_name::LinkName;
pub use list::List;
pub use name::{Name, NameStop};
pub use numbers::{put_u64s, read_u64s};
pub use refusal::{Refusal, Stop};
use thiserror::Error;

/// Why a reader of a block that takes memory gives no value.
#[derive(Clone, Copy, Debug, PartialEq, Eq, Error)]
pub enum CodecStop {
    /// The bytes spell nothing of this kind.
    #[error("not this kind of block")]
    NotThis,
    #[error("out of memory")]
    NoMemory,
}

/// There is no memory left.
#[derive(Clone, Copy, Debug, PartialEq, Eq, Error)]
#[error("out of memory")]
pub struct NoMemory;
