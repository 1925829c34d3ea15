ghost use Rattle.std.specs.Prelude.{◌+◌, ◌^◌, ◌<◌};

/// So many bytes from an address on.
#[derive(Clone, Copy, Debug, PartialEq, Eq)]
pub struct Extent {
    pub start: u64,
    pub len: u64,

    /// The address behind the last byte is a number of 64 bits.
    pub ghost fits: { start + len < 2 ^ 64 },
}

/// What a block of a file holds, which decides in which region it lies: the classes of memory of HDF5's virtual
/// file layer, in their order.
#[derive(Clone, Copy, Debug, PartialEq, Eq)]
pub enum MemClass {
    /// Superblock and driver information block.
    Super,
    /// Nodes of B-trees and symbol table nodes.
    Tree,
    /// Elements of datasets.
    Raw,
    /// Global heaps.
    GlobalHeap,
    /// Local heaps.
    LocalHeap,
    /// Object headers.
    Header,
}

/// The addresses that blocks of one class may have: from `start` on, below `limit`.
#[derive(Clone, Copy, Debug, PartialEq, Eq)]
pub struct Region {
    pub start: u64,
    pub limit: u64,
}
