ghost use Rattle.std.specs.Prelude.{◌≡◌};
ghost use Rattle.super_codec.specs.Super.{super_len};

use h5_base::What;
use thiserror::Error;

/// A superblock of version 0 or 1, without what is the same in each or reserved. An address of all ones is
/// undefined. (HDF5 File Format Specification 3.0, II.A.)
#[derive(Clone, Copy, Debug, PartialEq, Eq)]
pub struct Superblock {
    /// 0 or 1.
    pub version: u8,
    /// Half the room of a symbol table node.
    pub leaf_k: u16,
    /// Half the room of a node in a group's B-tree.
    pub internal_k: u16,
    /// Half the room of a node in a chunk B-tree; 32 in version 0, which doesn't store it.
    pub chunk_k: u16,
    /// The file consistency flags, which are not judged.
    pub flags: u32,
    /// The address of the free-space index, which is not judged.
    pub free_at: u64,
    /// The end-of-file address.
    pub end_at: u64,
    /// The address of the driver information block.
    pub driver_at: u64,
    pub root: RootEntry,
}

/// The K values of a file: half the room of its nodes (II.A).
#[derive(Clone, Copy, Debug, PartialEq, Eq)]
pub struct KValues {
    /// Half the entries that a symbol table node has room for.
    pub leaf: u16,
    /// Half the children that a node of a group's B-tree has room for.
    pub internal: u16,
    /// Half the children that a node of a chunk B-tree has room for.
    pub chunk: u16,
}

impl Superblock {
    /// How many bytes it has (II.A).
    pub fn byte_len(&self) -> u64
        ensures { result ≡ super_len self.now.version }
    {
        if self.version == 1 { 100 } else { 96 }
    }

    /// The K values of its file.
    pub fn k_values(&self) -> KValues
        ensures { result ≡ record { leaf = self.now.leaf_k; internal = self.now.internal_k; chunk = self.now.chunk_k } }
    {
        KValues {
            leaf: self.leaf_k,
            internal: self.internal_k,
            chunk: self.chunk_k,
        }
    }
}

/// The symbol table entry of the root group, without its link name offset (III.C).
#[derive(Clone, Copy, Debug, PartialEq, Eq)]
pub struct RootEntry {
    /// The address of the object header.
    pub header_at: u64,
    /// The cache type. Where it is 1, the scratch pad holds the next two addresses.
    pub cache: u32,
    /// The address of the group's B-tree: the first half of the scratch pad.
    pub tree_at: u64,
    /// The address of the group's local heap: the second half of the scratch pad.
    pub heap_at: u64,
}

/// Why bytes are not read as a superblock.
#[derive(Clone, Copy, Debug, PartialEq, Eq, Error)]
pub enum SuperStop {
    /// They spell none, and no field asks for what isn't supported.
    #[error("not a superblock")]
    NotThis,
    /// A field that lies whole in the bytes asks for what isn't supported.
    #[error("a superblock that is not supported")]
    Unsupported { what: What },
}
