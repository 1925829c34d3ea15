// Blocks of groups and of chunk indexes, written and read again.
use node_codec::{
    HeapHead, read_chunk_node, read_group_node, read_heap, read_snod, write_chunk_node,
    write_group_node, write_heap, write_snod,
};
use std::alloc::Global;
use std::test::Fail;

/// The heap of the root of an empty file.
#[test]
fn heap_is_written(rt: HostRuntime) {
    let bytes = b"HEAP\0\0\0\0\x58\0\0\0\0\0\0\0\x08\0\0\0\0\0\0\0\xC8\x02\0\0\0\0\0\0";
    let head = HeapHead {
        len: 88,
        free: 8,
        segment_at: 712,
    };
    let mut out = [0xFF; 32];
    write_heap(&head, &mut out);
    assert!(rt; out == *bytes && read_heap(bytes) == Some(head));
}

// Whether the group node with room for two children is written as these bytes, and reads so.
fn is_group_node(alloc: Global, bytes: &[u8; 64], want: &str) -> Result<bool, Fail> {
    let node = read_group_node(alloc, bytes, 1)?;
    let mut out = [0xFF; 64];
    write_group_node(&node, 1, &mut out);
    let text = format!(in alloc; "{node:?}")?;
    Ok(out == *bytes && text.as_str() == want)
}

/// A node over one symbol table node.
#[test]
fn group_node_is_written(rt: HostRuntime) -> Result<(), Fail> {
    let bytes = b"TREE\0\0\x01\0\xFF\xFF\xFF\xFF\xFF\xFF\xFF\xFF\xFF\xFF\xFF\xFF\xFF\xFF\xFF\xFF\
        \0\0\0\0\0\0\0\0\x20\x03\0\0\0\0\0\0\x20\0\0\0\0\0\0\0\0\0\0\0\0\0\0\0\0\0\0\0\0\0\0\0";
    let want = "GroupNode { level: 0, left: 18446744073709551615, right: 18446744073709551615, \
        keys: List { items: [0, 32] }, children: List { items: [800] } }";
    assert!(rt; is_group_node(rt.alloc(), bytes, want)?);
    Ok(())
}

// Whether the symbol table node with room for two entries is written as these bytes, and reads so.
fn is_snod(alloc: Global, bytes: &[u8; 88], want: &str) -> Result<bool, Fail> {
    let entries = read_snod(alloc, bytes, 1)?;
    let mut out = [0xFF; 88];
    write_snod(&entries, 1, &mut out);
    let text = format!(in alloc; "{entries:?}")?;
    Ok(out == *bytes && text.as_str() == want)
}

/// A group and a soft link, whose text begins at 24.
#[test]
fn entries_are_written(rt: HostRuntime) -> Result<(), Fail> {
    let bytes = b"SNOD\x01\0\x02\0\
        \x08\0\0\0\0\0\0\0\x68\x04\0\0\0\0\0\0\x01\0\0\0\0\0\0\0\x90\x04\0\0\0\0\0\0\xB0\x06\0\0\0\0\0\0\
        \x10\0\0\0\0\0\0\0\xFF\xFF\xFF\xFF\xFF\xFF\xFF\xFF\x02\0\0\0\0\0\0\0\x18\0\0\0\0\x77\0\0\x03\0\0\0\0\0\0\0";
    let want =
        "[SnodEntry { name_at: 8, header_at: 1128, cache: 1, tree_at: 1168, heap_at: 1712 }, \
        SnodEntry { name_at: 16, header_at: 18446744073709551615, cache: 2, tree_at: 130841883705368, heap_at: 3 }]";
    assert!(rt; is_snod(rt.alloc(), bytes, want)?);
    Ok(())
}

// Whether the full node over chunks of rank 1 that the first bytes spell reads so, and is written as the other bytes.
fn is_chunk_node(
    alloc: Global,
    bytes: &[u8; 112],
    written: &[u8; 112],
    want: &str,
) -> Result<bool, Fail> {
    let node = read_chunk_node(alloc, bytes, 1, 1)?;
    let mut out = [0xFF; 112];
    write_chunk_node(&node, 1, 1, &mut out);
    let text = format!(in alloc; "{node:?}")?;
    Ok(out == *written && text.as_str() == want)
}

/// It is written as it was read, but that the last key's offset in an element is 0.
#[test]
fn chunk_node_is_written(rt: HostRuntime) -> Result<(), Fail> {
    let written = b"TREE\x01\0\x02\0\xFF\xFF\xFF\xFF\xFF\xFF\xFF\xFF\x09\0\0\0\0\0\0\0\
        \x05\0\0\0\0\0\0\0\x02\0\0\0\0\0\0\0\0\0\0\0\0\0\0\0\xE8\x03\0\0\0\0\0\0\
        \x06\0\0\0\x01\0\0\0\x04\0\0\0\0\0\0\0\0\0\0\0\0\0\0\0\xD0\x07\0\0\0\0\0\0\
        \0\0\0\0\0\0\0\0\x08\0\0\0\0\0\0\0\0\0\0\0\0\0\0\0";
    let mut bytes = *written;
    bytes[104] = 4;
    let want = "ChunkNode { level: 0, left: 18446744073709551615, right: 9, keys: List { items: [\
        ChunkKey { bytes: 5, mask: 0, offset: Dims { sizes: [2] } }, \
        ChunkKey { bytes: 6, mask: 1, offset: Dims { sizes: [4] } }, \
        ChunkKey { bytes: 0, mask: 0, offset: Dims { sizes: [8] } }] }, children: List { items: [1000, 2000] } }";
    assert!(rt; is_chunk_node(rt.alloc(), &bytes, written, want)?);
    Ok(())
}
