ghost use Rattle.std.specs.Prelude.{◌≡◌, None, IsTrue, IfOk, IfErr, IfSome, IsErrOf};
ghost use Rattle.h5_base.specs.declared.extent.MemClass.TheVariants as class;
ghost use Rattle.outside.specs.Causes.{OneRose};
ghost use Rattle.outside.specs.Space.{bounds_of};
ghost use Rattle.h5_base.specs.Refusals.{refusal_of};
ghost use Rattle.super_codec.specs.declared.superblock.Superblock.{Superblock};
ghost use Rattle.object_model.specs.Tree.{Group, walk};
ghost use Rattle.file_model.specs.Holds.{GroupAt, Full, FullLinks, HoldsFull};
ghost use Rattle.file_model.specs.Limits.{IsWithinLimits};
ghost use Rattle.file_model.specs.Laws.{all_blocks};
ghost use Rattle.file_model.specs.RefusedTree.{IsFileRefused};
ghost use Rattle.tree_nodes.specs.Entries.{Has};
ghost use Rattle.tree_nodes.specs.Shown.{Keyed, Shows};
ghost use Rattle.object_tree.specs.Sound.{IsSoundTree};
ghost use Rattle.space_example.specs.Lookup.{IsFileTree, looked, told, reached_node, reached_id};

use block_space::Blocks;
use dtype::ElemType;
use h5_base::{Bytes, LinkName, Stop};
use object_tree::{Node, NodeId, ObjectTree, open_tree};
use outside::Space;
use std::alloc::Global;

/// What a path leads to; addresses are those of object headers.
#[derive(Debug, Drop)]
pub enum Found {
    Group {
        header_at: u64,
    },
    /// A dataset; `filtered` where its chunks pass through filters.
    Dataset {
        header_at: u64,
        elem: ElemType,
        filtered: bool,
    },
    /// A soft link: the text of its target.
    Soft {
        text: Bytes,
    },
    /// An object that is neither a group nor a dataset that is known.
    Other {
        header_at: u64,
    },
}

/// A space in which a path was looked up, and what it leads to: `None` where it leads nowhere.
#[derive(Drop)]
pub struct Looked<V> {
    pub space: V,
    pub answer: Result<Option<Found>, Stop>,
}

// The node that a path leads to.
fn id_at(tree: &ObjectTree, path: &[LinkName]) -> Option<NodeId>
    requires { IsSoundTree tree.now }
    ensures there { IfSome result (Has tree.now) }
    ensures found { (t : Keyed) → Shows tree.now t → result ≡ reached_id (walk t path.now) }
{
    let mut id = tree.root();
    for name in path {
        match tree.child(id, name) {
            Some(child) => id = child,
            None => return None,
        }
    }
    Some(id)
}

// What the file holds at a node.
fn tell(alloc: Global, node: &Node) -> Result<Found, Stop>
    ensures told { IfOk result (λ f. f ≡ told node.now) }
    ensures memory { IfErr result (λ stop. stop ≡ Stop.NoMemory) }
{
    match node {
        Node::Group { header_at, .. } => Ok(Found::Group {
            header_at: *header_at,
        }),
        Node::Dataset {
            header_at,
            elem,
            filtered,
            ..
        } => Ok(Found::Dataset {
            header_at: *header_at,
            elem: *elem,
            filtered: *filtered,
        }),
        Node::Soft { text } => match Bytes::from_slice(alloc, text.as_slice()) {
            Ok(text) => Ok(Found::Soft { text }),
            Err(_) => Err(Stop::NoMemory),
        },
        Node::Other { header_at } => Ok(Found::Other {
            header_at: *header_at,
        }),
    }
}

// What a path of a tree leads to.
fn found_at(alloc: Global, tree: &ObjectTree, path: &[LinkName]) -> Result<Option<Found>, Stop>
    requires { IsSoundTree tree.now }
    ensures found { IfOk result (λ o. (t : Keyed) → Shows tree.now t → o ≡ reached_node (walk t path.now)) }
    ensures memory { IfErr result (λ stop. stop ≡ Stop.NoMemory) }
{
    match id_at(tree, path) {
        Some(id) => match tell(alloc, tree.node(id)) {
            Ok(found) => Ok(Some(found)),
            Err(stop) => Err(stop),
        },
        None => Ok(None),
    }
}

/// Opens the file of a space whose first region begins at address 0, and looks up what a path of names leads to from
/// its root on. An error is why the file isn't opened, or want of memory. The space is handed back.
pub fn lookup<V: Space>(alloc: Global, space: V, path: &[LinkName]) -> Looked<V>
    requires stands { V.Stands space }
    requires first { ((V.view space).regions class.Super).start ≡ 0 }
    // The file holds a tree, and what is answered is what the path leads to in it.
    ensures found { IsTrue V.tells → IfOk result.answer (λ o. (t : Full)
        × IsFileTree (V.view space).array (bounds_of (V.view space) None) t × (o ≡ looked t path.now)) }
    // In every tree that the file holds the path leads to what is answered.
    ensures there { IsTrue V.tells → IfOk result.answer (λ o. (t : Full)
        → IsFileTree (V.view space).array (bounds_of (V.view space) None) t → o ≡ looked t path.now) }
    // What is refused is shown by the bytes.
    ensures refused { IsTrue V.tells → IfErr result.answer
        (λ stop. IfSome (refusal_of stop) (IsFileRefused (V.view space).array (bounds_of (V.view space) None))) }
    // A file whose tree is held within the limits is refused by no line.
    ensures complete { IsTrue V.tells → (s : Superblock) (g : GroupAt) (ls : FullLinks)
        (h : HoldsFull (V.view space).array (bounds_of (V.view space) None) s g ls)
        → IsWithinLimits (V.view space).array (all_blocks s h.driver (Group g ls)) (Group g ls)
        → IfErr result.answer (λ stop. refusal_of stop ≡ None) }
    ensures alike { V.Alike space result.space }
    ensures failed { IsErrOf result.answer Stop.Failed → OneRose (V.faults space) (V.faults result.space) }
    ensures calm { ¬ IsErrOf result.answer Stop.Failed → V.faults result.space ≡ V.faults space }
{
    let mut blocks = Blocks::new(alloc, space);
    match open_tree(alloc, &mut blocks) {
        Ok(tree) => Looked {
            answer: found_at(alloc, &tree, path),
            space: blocks.finish(),
        },
        Err(stop) => Looked {
            answer: Err(stop),
            space: blocks.finish(),
        },
    }
}
