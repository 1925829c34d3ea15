ghost use Rattle.std.specs.Prelude.{◌≡◌, ◌↔◌, length, IsTrue, IfSome};
ghost use Rattle.node_codec.specs.Heap.{IsHeap, SpellsHeap, HeapInRange, heap_bytes};

use h5_base::{put_bytes, put_u64, u64_of};

/// The header of a group's local heap, which tells where the names of the group's links stand (HDF5 File Format
/// Specification 3.0, III.D).
#[derive(Clone, Copy, Debug, PartialEq, Eq)]
pub struct HeapHead {
    /// The bytes of the data segment.
    pub len: u64,
    /// The head of the free list: an offset in the data segment, 1 where there is no free block.
    pub free: u64,
    /// The address of the data segment.
    pub segment_at: u64,
}

const SIGNATURE: [u8; 4] = *b"HEAP";

fn is_heap(bytes: &[u8]) -> bool
    ensures { IsTrue result ↔ IsHeap bytes.now }
{
    bytes.len() == 32 && &bytes[..4] == SIGNATURE.as_slice() && bytes[4] == 0
}

/// The header that the bytes spell, none exactly where they spell none: another length than 32, signature or version.
/// The reserved bytes behind the version aren't looked at.
pub fn read_heap(bytes: &[u8]) -> Option<HeapHead>
    // What is read is spelled.
    ensures found { IfSome result (λ h. SpellsHeap h bytes.now) }
    // What is spelled is read.
    ensures only { (h : HeapHead) → SpellsHeap h bytes.now → result ≡ Some h }
{
    if !is_heap(bytes) {
        return None;
    }
    Some(HeapHead {
        len: u64_of(bytes, 8),
        free: u64_of(bytes, 16),
        segment_at: u64_of(bytes, 24),
    })
}

fn in_range(h: HeapHead)
    ensures { HeapInRange h }
{}

/// Writes the header into the 32 bytes of its block; reserved bytes are 0. It takes no memory.
pub fn write_heap(h: &HeapHead, out: &mut [u8])
    requires { length out.old ≡ 32 }
    ensures bytes { out.new ≡ heap_bytes h.now }
    // What is written is read again.
    ensures spelled { SpellsHeap h.now out.new }
{
    in_range(*h);
    put_bytes(out, 0, &[0x48, 0x45, 0x41, 0x50, 0, 0, 0, 0]);
    put_u64(out, 8, h.len);
    put_u64(out, 16, h.free);
    put_u64(out, 24, h.segment_at);
}
