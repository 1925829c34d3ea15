use group_heap::Heap;
use h5_base::List;
use node_codec::SnodEntry;
use plan_pieces::Image;
use super_codec::KValues;

/// Where a group stands, with the K values of its file.
#[derive(Clone, Copy, Debug, PartialEq, Eq)]
pub struct GroupAt {
    /// The address of the object's header.
    pub header_at: u64,
    /// The address of the root of its B-tree.
    pub tree_at: u64,
    /// The address of the header of its local heap.
    pub heap_at: u64,
    pub ks: KValues,
}

/// A group as it was read.
#[derive(Debug, Drop)]
pub struct GroupRead {
    pub heap: Heap,
    /// The entries of all symbol table nodes, from left to right.
    pub entries: Vec<SnodEntry>,
    /// The addresses of the symbol table nodes, from left to right.
    pub leaves: List<u64>,
    /// The addresses of the nodes of each level below the root, the lowest level first, each from left to right.
    pub rows: Vec<List<u64>>,
    /// The greatest offset in the heap that is in use: of a name, a soft link's value or a key beside a child.
    pub last: Option<u64>,
    /// The bytes of all nodes' blocks and of the heap's header, as they were read, in any order.
    pub blocks: Vec<Image>,
}
