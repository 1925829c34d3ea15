ghost use Rattle.std.specs.Prelude.{◌↔◌, IsTrue};
ghost use Rattle.dtype.specs.Shapes.{IsShape};
ghost use Rattle.header_codec.specs.Written.{HasHeader, IsFillValue, IsLayout};

use crate::layout_codec::is_chunk;
use dtype::{Dims, ElemType, Shape};
use h5_base::Bytes;

/// The prefix of an object header of version 1 (HDF5 File Format Specification 3.0, IV.A.1.a).
#[derive(Clone, Copy, Debug, PartialEq, Eq)]
pub struct Prefix {
    /// How many messages the header has, those of its continuations included.
    pub messages: u16,
    /// How many hard links the object has.
    pub links: u32,
    /// The bytes of messages that follow the prefix.
    pub size: u32,
}

/// Where a header message lies within a block of messages (IV.A.2).
#[derive(Clone, Copy, Debug, PartialEq, Eq)]
pub struct Message {
    /// The type of the message, as 0x0001 for a dataspace.
    pub kind: u16,
    /// Bit 1 says that the message is shared.
    pub flags: u8,
    /// Where the data begin, in the bytes that the message was read from.
    pub at: usize,
    /// How many bytes of data follow, a multiple of 8. The next message stands behind them.
    pub len: usize,
}

/// How the elements of a dataset are stored (IV.A.2.i, version 3). An address of all ones is undefined.
#[derive(Debug, Drop)]
pub enum Layout {
    /// In one block: its address, and the size in bytes that the message tells.
    Contiguous { at: u64, len: u64 },
    /// In chunks: the address of their B-tree, and the sizes of a chunk, one for each dimension and then the size of an
    /// element.
    Chunked { tree_at: u64, sizes: Dims },
}

/// What an element reads as that was never written (IV.A.2.f, version 2).
#[derive(Debug, Drop)]
pub enum Fill {
    /// Bytes that are 0.
    Zeros,
    /// The bytes of one element, which are some.
    Value(Bytes),
}

/// What a new object header holds.
#[derive(Debug, Drop)]
pub enum NewHeader {
    /// A group: the addresses of its B-tree and its local heap.
    Group {
        tree_at: u64,
        heap_at: u64,
    },
    Dataset {
        space: Shape,
        elem: ElemType,
        fill: Fill,
        layout: Layout,
    },
}

impl NewHeader {
    /// Whether each of its messages has a spelling: a group always; a dataset of at most 32 dimensions and as many
    /// maximum sizes, whose elements are integers of 1, 2, 4 or 8 bytes or strings of 1 to 65,535, with a fill value of
    /// 1 to 65,520 bytes or none, and sizes of a chunk where it is chunked.
    pub fn is_writable(&self) -> bool
        ensures { IsTrue result ↔ HasHeader self.now }
    {
        match self {
            NewHeader::Group { .. } => true,
            NewHeader::Dataset {
                space,
                elem,
                fill,
                layout,
            } => is_shape(space) && elem.is_valid() && is_fill_value(fill) && is_layout(layout),
        }
    }
}

fn is_shape(space: &Shape) -> bool
    ensures { IsTrue result ↔ IsShape space.now }
{
    match &space.max {
        None => space.dims.len() <= 32,
        Some(max) => space.dims.len() <= 32 && max.len() == space.dims.len(),
    }
}

fn is_fill_value(fill: &Fill) -> bool
    ensures { IsTrue result ↔ IsFillValue fill.now }
{
    match fill {
        Fill::Zeros => true,
        Fill::Value(value) => 1 <= value.len() && value.len() <= 65_520,
    }
}

fn is_layout(layout: &Layout) -> bool
    ensures { IsTrue result ↔ IsLayout layout.now }
{
    match layout {
        Layout::Contiguous { .. } => true,
        Layout::Chunked { sizes, .. } => is_chunk(sizes.as_slice()),
    }
}
