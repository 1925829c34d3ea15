ghost use Rattle.std.specs.Prelude.{◌≡◌, IfOk, IfErr};
ghost use Rattle.tree_nodes.specs.Entries.{LacksLink, Inserts};
ghost use Rattle.object_tree.specs.Grown.{table_of};

use group_reader::TextBudget;
use h5_base::{LinkName, Stop};
use super_codec::KValues;
use tree_nodes::{Node, NodeId, ObjectTree};

/// The tree of a file while it is read, and the room that is left for its names and soft links' values.
#[derive(Drop)]
pub(crate) struct Opening {
    pub(crate) tree: ObjectTree,
    pub(crate) texts: TextBudget,
}

/// A group whose links are read: the K values of its file, its node, and how many levels may come below it.
#[derive(Clone, Copy)]
pub(crate) struct Place {
    pub(crate) ks: KValues,
    pub(crate) group: NodeId,
    pub(crate) levels: u8,
}

/// The addresses of a group's B-tree and local heap.
#[derive(Clone, Copy)]
pub(crate) struct Table {
    pub(crate) tree_at: u64,
    pub(crate) heap_at: u64,
}

// Adds a node behind a new name of the group.
pub(crate) fn add(
    tree: &mut ObjectTree,
    group: NodeId,
    name: LinkName,
    node: Node,
) -> Result<NodeId, Stop>
    requires { LacksLink tree.old group name }
    ensures added { IfOk result (λ id. Inserts tree.old tree.new group.key name id.key node) }
    ensures memory { IfErr result (λ stop. stop ≡ Stop.NoMemory) }
{
    tree.reserve(group)?;
    Ok(tree.insert(group, name, node))
}

// Where a group's B-tree and heap are; nothing of another object.
pub(crate) fn table_of(node: &Node) -> Option<Table>
    ensures { result ≡ table_of node.now }
{
    match node {
        Node::Group {
            tree_at,
            heap_at,
            ..
        } => Some(Table {
            tree_at: *tree_at,
            heap_at: *heap_at,
        }),
        _ => None,
    }
}
