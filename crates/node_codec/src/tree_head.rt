ghost use Rattle.std.specs.Prelude.{◌≤◌, ◌↔◌, length, IsTrue};
ghost use Rattle.h5_base.specs.Fields.{Puts};
ghost use Rattle.node_codec.specs.TreeHead.{IsTreeNode, IsU64, tree_head};

use h5_base::{put_bytes, put_u16, put_u64, u16_of};

const SIGNATURE: [u8; 4] = *b"TREE";

/// Whether the bytes are a node of this type and size, with at most 2k children.
pub fn is_tree_node(bytes: &[u8], kind: u8, k: u16, size: usize) -> bool
    requires { 24 ≤ size }
    ensures { IsTrue result ↔ IsTreeNode kind k size bytes.now }
{
    bytes.len() == size
        && &bytes[..4] == SIGNATURE.as_slice()
        && bytes[4] == kind
        && u16_of(bytes, 6) as usize <= 2 * k as usize
}

/// Writes the 24 bytes before a node's first key; the rest stays.
pub fn put_tree_head(out: &mut [u8], kind: u8, level: u8, used: u16, left: u64, right: u64)
    requires { 24 ≤ length out.old }
    ensures put { Puts out.old out.new 0 (tree_head kind level used left right) }
    ensures left { IsU64 left }
    ensures right { IsU64 right }
{
    put_bytes(out, 0, &[0x54, 0x52, 0x45, 0x45, kind, level]);
    put_u16(out, 6, used);
    put_u64(out, 8, left);
    put_u64(out, 16, right);
}
