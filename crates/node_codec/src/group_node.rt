ghost use Rattle.std.specs.Prelude.{◌≡◌, ◌+◌, ◌*◌, ◌≤◌, length, map, All, IfOk};
ghost use Rattle.std.specs.Int.{w64, to_le_bytes};
ghost use Rattle.h5_base.specs.Fields.{Puts};
ghost use Rattle.node_codec.specs.Cells.{woven};
ghost use Rattle.node_codec.specs.TreeHead.{IsU64};
ghost use Rattle.node_codec.specs.GroupNodes.{SpellsGroupNode, FitsGroupNode, group_node_len, group_node_bytes};

use crate::tree_head::{is_tree_node, put_tree_head};
use h5_base::{CodecStop, List, put_u64, read_u64s, u16_of, u64_of};
use std::alloc::Global;

/// A node of a group's B-tree (HDF5 File Format Specification 3.0, III.A.1). It has one key more than it has children.
#[derive(Debug, Drop)]
pub struct GroupNode {
    /// 0 where the children are symbol table nodes, else one more than the children's level.
    pub level: u8,
    /// The address of the node to the left on this level, all ones where there is none.
    pub left: u64,
    /// The address of the node to the right on this level, all ones where there is none.
    pub right: u64,
    /// Offsets of names in the group's local heap: what stands under child i comes after the name of key i, and not
    /// after that of key i + 1.
    pub keys: List<u64>,
    /// Addresses of symbol table nodes, or of nodes of the level below.
    pub children: List<u64>,
}

/// The bytes of the block of a group node that has room for 2k children, 544 for a K of 16.
pub fn group_node_size(k: u16) -> usize
    ensures { result ≡ group_node_len k }
{
    let k = k as usize;
    24 + 8 * (2 * k + 1) + 16 * k
}

/// The node that the whole block spells, which has room for 2k children. `NotThis` comes exactly where it spells none:
/// another length, signature or node type, or more than 2k entries used. Cells past the used ones aren't looked at.
pub fn read_group_node(alloc: Global, bytes: &[u8], k: u16) -> Result<GroupNode, CodecStop>
    // What is read is spelled.
    ensures found { IfOk result (λ n. SpellsGroupNode k n bytes.now) }
    ensures fits { IfOk result (λ n. FitsGroupNode k n) }
    // What is spelled is not refused.
    ensures only { result ≡ Err CodecStop.NotThis → (n : GroupNode) → ¬ SpellsGroupNode k n bytes.now }
{
    if !is_tree_node(bytes, 0, k, group_node_size(k)) {
        return Err(CodecStop::NotThis);
    }
    let used = u16_of(bytes, 6) as usize;
    let Ok(keys) = read_u64s(alloc, bytes, 24, 16, used + 1) else {
        return Err(CodecStop::NoMemory);
    };
    let Ok(children) = read_u64s(alloc, bytes, 32, 16, used) else {
        return Err(CodecStop::NoMemory);
    };
    Ok(GroupNode {
        level: bytes[5],
        left: u64_of(bytes, 8),
        right: u64_of(bytes, 16),
        keys: List::from_vec(keys),
        children: List::from_vec(children),
    })
}

/// Writes key 0, child 0, and so on to the key behind the last child, from `at` on; the rest stays.
fn put_links(out: &mut [u8], at: usize, keys: &[u64], children: &[u64])
    requires one_more { length keys.now ≡ length children.now + 1 }
    requires room { at + 16 * length children.now + 8 ≤ length out.old }
    ensures put { Puts out.old out.new at (woven (map (to_le_bytes w64) keys.now)
        (map (to_le_bytes w64) children.now)) }
    ensures keys { All IsU64 keys.now }
    ensures children { All IsU64 children.now }
{
    for (i, child) in children.iter().enumerate() {
        put_u64(out, at + 16 * i, keys[i]);
        put_u64(out, at + 16 * i + 8, *child);
    }
    put_u64(out, at + 16 * children.len(), keys[children.len()]);
}

/// Writes the node into its whole block, which has room for 2k children; unused cells are 0. It takes no memory.
pub fn write_group_node(n: &GroupNode, k: u16, out: &mut [u8])
    requires k { k ≤ 1024 }
    requires counts { FitsGroupNode k n.now }
    requires room { length out.old ≡ group_node_len k }
    ensures bytes { out.new ≡ group_node_bytes k n.now }
    // What is written is read again.
    ensures spelled { SpellsGroupNode k n.now out.new }
{
    out.fill(0);
    put_tree_head(out, 0, n.level, n.children.len() as u16, n.left, n.right);
    put_links(out, 24, n.keys.as_slice(), n.children.as_slice());
}
