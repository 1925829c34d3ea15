ghost use Rattle.std.specs.Prelude.{◌≡◌, ◌+◌, ◌<◌, length};
ghost use Rattle.storage_reader.specs.Nodes.{IsChildOf};

use node_codec::{ChunkKey, ChunkNode};

/// A child of a node, and the keys on both sides of it.
#[derive(Clone, Copy)]
pub(crate) struct Child<'a> {
    pub(crate) low: &'a ChunkKey,
    pub(crate) at: u64,
    pub(crate) high: &'a ChunkKey,
}

// Child i of a node.
pub(crate) fn child_of(node: &ChunkNode, i: usize) -> Child
    requires more { length node.now.keys ≡ length node.now.children + 1 }
    requires some { i < length node.now.children }
    ensures { IsChildOf node.now i result.low.now result.high.now result.at }
{
    let keys = node.keys.as_slice();
    Child {
        low: &keys[i],
        at: node.children.as_slice()[i],
        high: &keys[i + 1],
    }
}
