ghost use Rattle.std.specs.Prelude.{◌≡◌, ◌≤◌, ◌-◌, ◌++◌, length, take};
ghost use Rattle.empty_file.specs.Empty.{superblock, object_header, tree_node, heap_header, heap_segment, plain_places};
ghost use Rattle.empty_file.specs.Empty.{zeros};

use h5_base::put_bytes;

/// Signature, versions and sizes, K values and flags, addresses, the root's symbol table entry.
const SUPERBLOCK: [u8; 96] = [
    0x89, 0x48, 0x44, 0x46, 0x0D, 0x0A, 0x1A, 0x0A, 0, 0, 0, 0, 0, 8, 8, 0, 4, 0, 16, 0, 0, 0, 0,
    0, 0, 0, 0, 0, 0, 0, 0, 0, 255, 255, 255, 255, 255, 255, 255, 255, 32, 3, 0, 0, 0, 0, 0, 0,
    255, 255, 255, 255, 255, 255, 255, 255, 0, 0, 0, 0, 0, 0, 0, 0, 96, 0, 0, 0, 0, 0, 0, 0, 1, 0,
    0, 0, 0, 0, 0, 0, 136, 0, 0, 0, 0, 0, 0, 0, 168, 2, 0, 0, 0, 0, 0, 0,
];

/// The prefix, and a symbol table message.
const OBJECT_HEADER: [u8; 40] = [
    1, 0, 1, 0, 1, 0, 0, 0, 24, 0, 0, 0, 0, 0, 0, 0, 17, 0, 16, 0, 0, 0, 0, 0, 136, 0, 0, 0, 0, 0,
    0, 0, 168, 2, 0, 0, 0, 0, 0, 0,
];

/// A B-tree node before its room for entries.
const TREE_HEAD: [u8; 24] = [
    b'T', b'R', b'E', b'E', 0, 0, 0, 0, 255, 255, 255, 255, 255, 255, 255, 255, 255, 255, 255, 255,
    255, 255, 255, 255,
];

const HEAP_HEADER: [u8; 32] = [
    b'H', b'E', b'A', b'P', 0, 0, 0, 0, 88, 0, 0, 0, 0, 0, 0, 0, 8, 0, 0, 0, 0, 0, 0, 0, 200, 2, 0,
    0, 0, 0, 0, 0,
];

/// A heap segment before the rest of its free block.
const SEGMENT_HEAD: [u8; 24] = [
    0, 0, 0, 0, 0, 0, 0, 0, 1, 0, 0, 0, 0, 0, 0, 0, 80, 0, 0, 0, 0, 0, 0, 0,
];

/// Writes zeros from `at` to the end.
#[tactic(auto, unfolding(crate::specs::Empty::zeros))]
fn put_zeros(out: &mut [u8], at: usize)
    requires { at ≤ length out.old }
    ensures { out.new ≡ take at out.old ++ zeros (length out.old - at) }
{
    out[at..].fill(0);
}

/// Writes superblock, root header and B-tree node.
pub fn write_group(out: &mut [u8])
    requires { length out.old ≡ 680 }
    ensures { out.new ≡ superblock plain_places ++ object_header plain_places ++ tree_node }
{
    put_bytes(out, 0, &SUPERBLOCK);
    put_bytes(out, 96, &OBJECT_HEADER);
    put_bytes(out, 136, &TREE_HEAD);
    put_zeros(out, 160);
}

/// Writes the local heap and its segment.
pub fn write_heap(out: &mut [u8])
    requires { length out.old ≡ 120 }
    ensures { out.new ≡ heap_header plain_places ++ heap_segment }
{
    put_bytes(out, 0, &HEAP_HEADER);
    put_bytes(out, 32, &SEGMENT_HEAD);
    put_zeros(out, 56);
}
