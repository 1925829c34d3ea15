ghost use Rattle.std.specs.Prelude.{◌≡◌, ◌≤◌, IfOk, replicate};
ghost use Rattle.empty_file.specs.Empty.{heap_segment};
ghost use Rattle.new_group.specs.Group.{header_fill, heap_fill, root_node, segment_fill, tree_fill};
ghost use Rattle.new_group.specs.Placed.{group_fills};

use crate::places::Places;
use h5_base::{BlockKind, Bytes, List, MemClass, NoMemory, put_u64};
use header_codec::{NewHeader, write_header};
use node_codec::{GroupNode, HeapHead, group_node_size, write_group_node, write_heap};
use plan_pieces::{Image, NewBlock};
use std::alloc::Global;

/// The object header, whose one message names the root of the B-tree and the local heap.
fn header_block(alloc: Global, at: u64, tree_at: u64, heap_at: u64) -> Result<NewBlock, NoMemory>
    ensures { IfOk result (λ n. n ≡ header_fill at tree_at heap_at) }
{
    let bytes = write_header(alloc, &NewHeader::Group { tree_at, heap_at })?;
    Ok(NewBlock {
        class: MemClass::Header,
        kind: BlockKind::Header,
        image: Image { at, bytes },
    })
}

/// The root of a B-tree without entries: no siblings, and the one key, the offset of the empty name.
fn root_node(alloc: Global) -> Result<GroupNode, NoMemory>
    ensures { IfOk result (λ n. n ≡ root_node) }
{
    let Ok(keys) = Vec::from_slice(alloc, &[0u64]) else {
        return Err(NoMemory);
    };
    Ok(GroupNode {
        level: 0,
        left: u64::MAX,
        right: u64::MAX,
        keys: List::from_vec(keys),
        children: List::from_vec(Vec::new(alloc)),
    })
}

/// The block of the root node, which has room for 2k children.
fn tree_block(alloc: Global, k: u16, at: u64) -> Result<NewBlock, NoMemory>
    requires { k ≤ 1024 }
    ensures { IfOk result (λ n. n ≡ tree_fill k at) }
{
    let node = root_node(alloc)?;
    let Ok(mut bytes) = vec![in alloc; 0u8; group_node_size(k)] else {
        return Err(NoMemory);
    };
    write_group_node(&node, k, &mut bytes);
    Ok(NewBlock {
        class: MemClass::Tree,
        kind: BlockKind::Tree,
        image: Image {
            at,
            bytes: Bytes::from_vec(bytes),
        },
    })
}

/// The header of the local heap, whose free list begins at offset 8 of the segment.
fn heap_block(alloc: Global, at: u64, segment_at: u64) -> Result<NewBlock, NoMemory>
    ensures { IfOk result (λ n. n ≡ heap_fill at segment_at) }
{
    let Ok(mut bytes) = vec![in alloc; 0u8; 32] else {
        return Err(NoMemory);
    };
    let head = HeapHead {
        len: 88,
        free: 8,
        segment_at,
    };
    write_heap(&head, &mut bytes);
    Ok(NewBlock {
        class: MemClass::LocalHeap,
        kind: BlockKind::Heap,
        image: Image {
            at,
            bytes: Bytes::from_vec(bytes),
        },
    })
}

/// Writes a segment over zeros: the empty name at offset 0, and behind it one free block of 80 bytes, the last of the
/// free list.
fn put_empty(out: &mut [u8])
    requires { out.old ≡ replicate 88 0 }
    ensures { out.new ≡ heap_segment }
{
    put_u64(out, 8, 1);
    put_u64(out, 16, 80);
}

/// The heap's segment.
fn segment_block(alloc: Global, at: u64) -> Result<NewBlock, NoMemory>
    ensures { IfOk result (λ n. n ≡ segment_fill at) }
{
    let Ok(mut bytes) = vec![in alloc; 0u8; 88] else {
        return Err(NoMemory);
    };
    put_empty(&mut bytes);
    Ok(NewBlock {
        class: MemClass::LocalHeap,
        kind: BlockKind::Heap,
        image: Image {
            at,
            bytes: Bytes::from_vec(bytes),
        },
    })
}

/// The blocks of a new group, with all their bytes, at these places.
pub(crate) fn group_fills(alloc: Global, k: u16, at: &Places) -> Result<Vec<NewBlock>, NoMemory>
    requires { k ≤ 1024 }
    ensures { IfOk result (λ v. v.items ≡ group_fills k at.now) }
{
    let header = header_block(alloc, at.header_at, at.tree_at, at.heap_at)?;
    let tree = tree_block(alloc, k, at.tree_at)?;
    let heap = heap_block(alloc, at.heap_at, at.segment_at)?;
    let segment = segment_block(alloc, at.segment_at)?;
    match Vec::from_array(alloc, [header, tree, heap, segment]) {
        Ok(fills) => Ok(fills),
        Err(_) => Err(NoMemory),
    }
}
