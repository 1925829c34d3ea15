ghost use Rattle.std.specs.Prelude.{◌≡◌, ◌+◌, ◌%◌, ◌^◌, ◌<◌, ◌≤◌, IfOk};
ghost use Rattle.group_heap.specs.Edits.{IsFreed};
ghost use Rattle.group_heap.specs.Spelled.{IsFreePart};

use crate::heap::{Heap, HeapEdit};
use crate::spelling::{free_head, head_image, put_free};
use h5_base::{Bytes, NoMemory};
use node_codec::HeapHead;
use plan_pieces::Image;
use std::alloc::Global;

/// Tells what is free behind the used bytes of a heap, which are fewer now: one free block, if it has room (HDF5 File
/// Format Specification 3.0, III.D). All else of the segment stays as it is.
pub fn tell_free(alloc: Global, heap: &Heap, used: u64) -> Result<HeapEdit, NoMemory>
    requires high { used ≤ heap.now.head.len + 8 }
    requires small { heap.now.head.len ≤ 2 ^ 30 }
    requires within { heap.now.head.segment_at + heap.now.head.len < 2 ^ 64 }
    ensures frees { IfOk result (λ edit. IsFreed heap.now used edit) }
{
    let head = HeapHead {
        len: heap.head.len,
        free: free_head(used, heap.head.len),
        segment_at: heap.head.segment_at,
    };
    let header = head_image(alloc, heap.at, &head)?;
    let part = free_part(alloc, heap, used)?;
    Ok(HeapEdit {
        header,
        part,
        segment: None,
    })
}

/// The free block behind the used bytes, if it has room.
fn free_part(alloc: Global, heap: &Heap, used: u64) -> Result<Option<Image>, NoMemory>
    requires high { used ≤ heap.now.head.len + 8 }
    requires small { heap.now.head.len ≤ 2 ^ 30 }
    requires within { heap.now.head.segment_at + heap.now.head.len < 2 ^ 64 }
    ensures { IfOk result (λ part. IsFreePart heap.now used part) }
{
    if used + 16 > heap.head.len {
        return Ok(None);
    }
    let Ok(mut bytes) = vec![in alloc; 0u8; 16] else {
        return Err(NoMemory);
    };
    put_free(&mut bytes, 0, heap.head.len - used);
    Ok(Some(Image {
        at: heap.head.segment_at + used,
        bytes: Bytes::from_vec(bytes),
    }))
}
