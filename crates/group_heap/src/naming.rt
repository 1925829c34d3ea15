ghost use Rattle.std.specs.Prelude.{◌≡◌, ◌≢◌, ℕ, ◌+◌, ◌%◌, ◌^◌, ◌<◌, ◌≤◌, All, IfOk, length};
ghost use Rattle.group_room.specs.Used.{Fits, name_end};
ghost use Rattle.group_heap.specs.Edits.{IsNamed};

use crate::heap::{Heap, HeapEdit};
use crate::spelling::{free_head, head_image, round_up, spell};
use h5_base::{BlockKind, MemClass, NoMemory};
use node_codec::HeapHead;
use plan_pieces::{Image, NewBlock};
use std::alloc::Global;

/// Puts a name behind the used bytes of a heap (HDF5 File Format Specification 3.0, III.D), with a NUL. Where both
/// don't fit the segment, a new one is taken for it, which is to stand at `segment_at`: it has twice the length of the
/// old one, or more where the name needs more. In place only the bytes that change are written.
pub fn put_name(
    alloc: Global,
    heap: &Heap,
    used: u64,
    name: &[u8],
    segment_at: u64,
) -> Result<HeapEdit, NoMemory>
    requires whole { used % 8 ≡ 0 }
    requires low { 8 ≤ used }
    requires high { used ≤ heap.now.head.len + 8 }
    requires small { heap.now.head.len ≤ 2 ^ 30 }
    requires within { heap.now.head.segment_at + heap.now.head.len < 2 ^ 64 }
    requires short { length name.now ≤ 255 }
    requires no_nul { All (λ c. c ≢ 0) name.now }
    ensures puts { IfOk result (λ edit. IsNamed heap.now used name.now segment_at edit) }
{
    if used + name.len() as u64 + 1 <= heap.head.len {
        put_in_place(alloc, heap, used, name)
    } else {
        put_wider(alloc, heap, used, name, segment_at)
    }
}

/// Puts the name into the segment where it stands.
fn put_in_place(alloc: Global, heap: &Heap, used: u64, name: &[u8]) -> Result<HeapEdit, NoMemory>
    requires whole { used % 8 ≡ 0 }
    requires fits { Fits used heap.now.head.len name.now }
    requires small { heap.now.head.len ≤ 2 ^ 30 }
    requires within { heap.now.head.segment_at + heap.now.head.len < 2 ^ 64 }
    requires no_nul { All (λ c. c ≢ 0) name.now }
    ensures { IfOk result (λ edit. (segment_at : ℕ) → IsNamed heap.now used name.now segment_at edit) }
{
    let len = heap.head.len;
    let next = round_up(used + name.len() as u64 + 1);
    let part_len = if next + 16 <= len {
        next + 16 - used
    } else {
        len - used
    };
    let bytes = spell(
        alloc,
        &[],
        0,
        name,
        part_len as usize,
        len.saturating_sub(next),
    )?;
    let head = HeapHead {
        len,
        free: free_head(next, len),
        segment_at: heap.head.segment_at,
    };
    let header = head_image(alloc, heap.at, &head)?;
    Ok(HeapEdit {
        header,
        part: Some(Image {
            at: heap.head.segment_at + used,
            bytes,
        }),
        segment: None,
    })
}

/// Puts the name into a new segment, which begins with the used bytes of the old one.
fn put_wider(
    alloc: Global,
    heap: &Heap,
    used: u64,
    name: &[u8],
    segment_at: u64,
) -> Result<HeapEdit, NoMemory>
    requires whole { used % 8 ≡ 0 }
    requires high { used ≤ heap.now.head.len + 8 }
    requires small { heap.now.head.len ≤ 2 ^ 30 }
    requires short { length name.now ≤ 255 }
    requires wide { heap.now.head.len < name_end used name.now }
    requires no_nul { All (λ c. c ≢ 0) name.now }
    ensures { IfOk result (λ edit. IsNamed heap.now used name.now segment_at edit) }
{
    let end = used + name.len() as u64 + 1;
    let next = round_up(end);
    let len = round_up(end.max(2 * heap.head.len));
    let front = &heap.segment[..used.min(heap.head.len) as usize];
    let bytes = spell(alloc, front, used as usize, name, len as usize, len - next)?;
    let head = HeapHead {
        len,
        free: free_head(next, len),
        segment_at,
    };
    let header = head_image(alloc, heap.at, &head)?;
    Ok(HeapEdit {
        header,
        part: None,
        segment: Some(NewBlock {
            class: MemClass::LocalHeap,
            kind: BlockKind::Heap,
            image: Image {
                at: segment_at,
                bytes,
            },
        }),
    })
}
