// The superblock, written and read again.
use super_codec::{RootEntry, Superblock, read_super, write_super};

// That of a file of 800 bytes with an empty root group: from byte 16 on both K, the addresses of base, free space, end
// and driver information, and the root's entry.
const BYTES: [u8; 96] =
    *b"\x89HDF\r\n\x1A\n\0\0\0\0\0\x08\x08\0\x04\0\x10\0\0\0\0\0\0\0\0\0\0\0\0\0\
    \xFF\xFF\xFF\xFF\xFF\xFF\xFF\xFF\x20\x03\0\0\0\0\0\0\xFF\xFF\xFF\xFF\xFF\xFF\xFF\xFF\0\0\0\0\0\0\0\0\
    \x60\0\0\0\0\0\0\0\x01\0\0\0\0\0\0\0\x88\0\0\0\0\0\0\0\xA8\x02\0\0\0\0\0\0";

/// The superblock of that file.
pub const EMPTY: Superblock = Superblock {
    version: 0,
    leaf_k: 4,
    internal_k: 16,
    chunk_k: 32,
    flags: 0,
    free_at: u64::MAX,
    end_at: 800,
    driver_at: u64::MAX,
    root: RootEntry {
        header_at: 96,
        cache: 1,
        tree_at: 136,
        heap_at: 680,
    },
};

#[test]
fn superblock_is_written(rt: HostRuntime) {
    let mut block = [0xAA; 96];
    write_super(&EMPTY, &mut block);
    assert!(rt; block == BYTES && read_super(&BYTES) == Ok(EMPTY));
}
