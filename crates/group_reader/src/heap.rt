ghost use Rattle.std.specs.Prelude.{◌≡◌, ◌≤◌, ◌∷◌, [], ℕ, IsTrue, IfOk, IfErr, OnOk, IsErrOf};
ghost use Rattle.outside.specs.Array.{bytes_of};
ghost use Rattle.outside.specs.Blocks.{IsPlacedRefused, placed};
ghost use Rattle.outside.specs.Causes.{OneRose};
ghost use Rattle.node_codec.specs.Heap.{SpellsHeap};
ghost use Rattle.block_space.specs.Blocks.{Refuses, array_of, space_of};
ghost use Rattle.file_model.specs.Groups.{Ks};
ghost use Rattle.file_model.specs.Limits.{most_segment};
ghost use Rattle.file_model.specs.RefusedGroups.{IsTableRefused, heap_block};
ghost use Rattle.group_reader.specs.Reading.{TakesJust};

use block_space::Blocks;
use h5_base::{BlockKind, Stop, What};
use node_codec::{HeapHead, read_heap};
use outside::Space;
use std::alloc::Global;

/// The bytes of the largest data segment that is read.
const MOST_SEGMENT: u64 = 16_777_216;

/// Reads the header of a local heap. A segment above the limit is unsupported.
pub(crate) fn read_head<V: Space>(
    alloc: Global,
    blocks: &mut Blocks<V>,
    heap_at: u64,
) -> Result<HeapHead, Stop>
    requires stands { V.Stands (space_of blocks.old) }
    ensures found { IsTrue V.tells → IfOk result
        (λ head. SpellsHeap head (bytes_of (array_of V.view blocks.old) heap_at 32)) }
    ensures small { IfOk result (λ head. head.len ≤ most_segment) }
    ensures taken { OnOk result (TakesJust V.view blocks.old blocks.new (heap_block heap_at ∷ [])) }
    ensures refused { IsTrue V.tells → (ks : Ks) (tree : ℕ) → IfErr result (Refuses V.view blocks.old (λ e met r.
        IsTableRefused (array_of V.view blocks.old) e ks met tree heap_at r)) }
    ensures alike { V.Alike (space_of blocks.old) (space_of blocks.new) }
    ensures failed { IsErrOf result Stop.Failed
        → OneRose (V.faults (space_of blocks.old)) (V.faults (space_of blocks.new)) }
    ensures calm { ¬ IsErrOf result Stop.Failed
        → V.faults (space_of blocks.new) ≡ V.faults (space_of blocks.old) }
{
    let bytes = blocks.adopt_bytes(alloc, heap_at, 32, BlockKind::Heap)?;
    let Some(head) = read_heap(&bytes) else {
        return Err(Stop::malformed(heap_at, BlockKind::Heap));
    };
    if head.len > MOST_SEGMENT {
        return Err(Stop::unsupported(What::Heap));
    }
    Ok(head)
}

/// Reads the data segment of a local heap; an empty one has no place, and isn't read.
pub(crate) fn read_segment<V: Space>(
    alloc: Global,
    blocks: &mut Blocks<V>,
    head: HeapHead,
) -> Result<Vec<u8>, Stop>
    requires stands { V.Stands (space_of blocks.old) }
    requires small { head.len ≤ most_segment }
    ensures bytes { IsTrue V.tells → IfOk result
        (λ segment. segment.items ≡ bytes_of (array_of V.view blocks.old) head.segment_at head.len) }
    ensures taken { OnOk result (TakesJust V.view blocks.old blocks.new (placed head.segment_at head.len)) }
    ensures refused { IfErr result (Refuses V.view blocks.old
        (λ e met. IsPlacedRefused e met head.segment_at head.len BlockKind.Heap)) }
    ensures alike { V.Alike (space_of blocks.old) (space_of blocks.new) }
    ensures failed { IsErrOf result Stop.Failed
        → OneRose (V.faults (space_of blocks.old)) (V.faults (space_of blocks.new)) }
    ensures calm { ¬ IsErrOf result Stop.Failed
        → V.faults (space_of blocks.new) ≡ V.faults (space_of blocks.old) }
{
    blocks.adopt_placed(head.segment_at, head.len, BlockKind::Heap)?;
    if head.len == 0 {
        return Ok(Vec::new(alloc));
    }
    blocks.read_bytes(alloc, head.segment_at, head.len as usize)
}
