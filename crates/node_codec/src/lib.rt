//! The blocks of a group and of a chunk index: nodes of version-1 B-trees, symbol table nodes and headers of local
//! heaps.
#![tactic(auto)]

mod chunk_node;
mod group_node;
mod heap;
mod snod;
mod tree_head;

pub use chunk_node::{ChunkKey, ChunkNode, chunk_node_size, read_chunk_node, write_chunk_node};
pub use group_node::{GroupNode, group_node_size, read_group_node, write_group_node};
pub use heap::{HeapHead, read_heap, write_heap};
pub use snod::{SnodEntry, read_snod, snod_size, write_snod};
