ghost use Rattle.std.specs.Prelude.{◌≡◌, ◌+◌, ◌^◌, ◌<◌, ◌≤◌, ◌∷◌, [], IsTrue, IfOk, IfErr, OnOk, length};
ghost use Rattle.outside.specs.Array.{bytes_of};
ghost use Rattle.node_codec.specs.Heap.{SpellsHeap};
ghost use Rattle.node_codec.specs.declared.heap.HeapHead.{HeapHead};
ghost use Rattle.block_space.specs.Blocks.{array_of, space_of};
ghost use Rattle.file_model.specs.Limits.{most_segment};
ghost use Rattle.group_rows.specs.Rows.{head_image};
ghost use Rattle.group_rows.specs.Gathering.{IsMalformed, Reads, Adds};

use crate::block::read_block;
use crate::gathered::{Gathered, keep};
use block_space::{Blocks, PlanStop};
use group_heap::Heap;
use h5_base::{BlockKind, Bytes};
use node_codec::{HeapHead, read_heap};
use outside::Space;
use plan_pieces::Image;
use std::alloc::Global;

/// The bytes of the largest data segment that is read.
const MOST_SEGMENT: u64 = 16_777_216;

/// Reads the header of a local heap.
fn read_head<V: Space>(
    alloc: Global,
    blocks: &mut Blocks<V>,
    at: u64,
    gathered: &mut Gathered,
) -> Result<HeapHead, PlanStop>
    requires stands { V.Stands (space_of blocks.old) }
    ensures found { IsTrue V.tells → IfOk result
        (λ head. SpellsHeap head (bytes_of (array_of V.view blocks.old) at 32)) }
    ensures small { IfOk result (λ head. head.len ≤ most_segment) }
    ensures adds { IsTrue V.tells → OnOk result
        (Adds (head_image (array_of V.view blocks.old) at ∷ []) [] 0 gathered.old gathered.new) }
    ensures left { OnOk result (gathered.new.left ≡ gathered.old.left) }
    ensures whole { IsTrue V.tells → (head : HeapHead)
        → SpellsHeap head (bytes_of (array_of V.view blocks.old) at 32)
        → at + 32 < 2 ^ 64 → head.len ≤ most_segment → IfErr result (λ stop. ¬ IsMalformed stop) }
    ensures reads { Reads V.view V.Alike V.faults blocks.old blocks.new result }
{
    let bytes = read_block(alloc, blocks, at, 32, BlockKind::Heap)?;
    match read_heap(&bytes) {
        Some(head) if head.len <= MOST_SEGMENT => {
            let bytes = Bytes::from_vec(bytes);
            keep(&mut gathered.images, Image { at, bytes })?;
            Ok(head)
        }
        _ => Err(PlanStop::Malformed {
            at,
            kind: BlockKind::Heap,
        }),
    }
}

/// Reads a local heap: its header, and its data segment, of which there may be none.
pub(crate) fn read_whole_heap<V: Space>(
    alloc: Global,
    blocks: &mut Blocks<V>,
    at: u64,
    gathered: &mut Gathered,
) -> Result<Heap, PlanStop>
    requires stands { V.Stands (space_of blocks.old) }
    ensures at { IfOk result (λ heap. heap.at ≡ at) }
    ensures found { IsTrue V.tells → IfOk result
        (λ heap. SpellsHeap heap.head (bytes_of (array_of V.view blocks.old) at 32)) }
    ensures segment { IsTrue V.tells → IfOk result (λ heap. heap.segment.items
        ≡ bytes_of (array_of V.view blocks.old) heap.head.segment_at heap.head.len) }
    ensures small { IfOk result (λ heap. length heap.segment.items ≤ most_segment) }
    ensures adds { IsTrue V.tells → OnOk result
        (Adds (head_image (array_of V.view blocks.old) at ∷ []) [] 0 gathered.old gathered.new) }
    ensures left { OnOk result (gathered.new.left ≡ gathered.old.left) }
    ensures whole { IsTrue V.tells → (head : HeapHead)
        → SpellsHeap head (bytes_of (array_of V.view blocks.old) at 32)
        → at + 32 < 2 ^ 64 → head.len ≤ most_segment → (0 < head.len → head.segment_at + head.len < 2 ^ 64)
        → IfErr result (λ stop. ¬ IsMalformed stop) }
    ensures reads { Reads V.view V.Alike V.faults blocks.old blocks.new result }
{
    let head = read_head(alloc, blocks, at, gathered)?;
    let segment = read_segment(alloc, blocks, head)?;
    Ok(Heap { at, head, segment })
}

/// Reads the data segment of a local heap; an empty one has no place, and isn't read.
fn read_segment<V: Space>(
    alloc: Global,
    blocks: &mut Blocks<V>,
    head: HeapHead,
) -> Result<Vec<u8>, PlanStop>
    requires stands { V.Stands (space_of blocks.old) }
    requires small { head.len ≤ most_segment }
    ensures bytes { IsTrue V.tells → IfOk result
        (λ segment. segment.items ≡ bytes_of (array_of V.view blocks.old) head.segment_at head.len) }
    ensures len { IfOk result (λ segment. length segment.items ≡ head.len) }
    ensures whole { (0 < head.len → head.segment_at + head.len < 2 ^ 64)
        → IfErr result (λ stop. ¬ IsMalformed stop) }
    ensures reads { Reads V.view V.Alike V.faults blocks.old blocks.new result }
{
    if head.len == 0 {
        return Ok(Vec::new(alloc));
    }
    read_block(
        alloc,
        blocks,
        head.segment_at,
        head.len as usize,
        BlockKind::Heap,
    )
}
