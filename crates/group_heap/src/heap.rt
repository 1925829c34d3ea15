ghost use Rattle.std.specs.Prelude.{◌≡◌, length};

use node_codec::HeapHead;
use plan_pieces::{Image, NewBlock};

/// A group's local heap as it was read (HDF5 File Format Specification 3.0, III.D).
#[derive(Debug, Drop)]
pub struct Heap {
    /// The address of the header.
    pub at: u64,
    pub head: HeapHead,
    /// The data segment.
    pub segment: Vec<u8>,
    pub ghost len: { length segment.items ≡ head.len },
}

/// What an edit makes of a heap.
#[derive(Debug, Drop)]
pub struct HeapEdit {
    /// The new header, in the place of the old one.
    pub header: Image,
    /// The bytes of the segment that change, where it stays in its place.
    pub part: Option<Image>,
    /// A new segment, in place of the old one.
    pub segment: Option<NewBlock>,
}
