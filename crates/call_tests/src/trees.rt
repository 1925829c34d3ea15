// An object tree in memory that grows, shrinks and changes.
ghost use Rattle.std.specs.Prelude.{◌≡◌, Some, IfOk, OnOk};
ghost use Rattle.object_model.specs.Tree.{Group};
ghost use Rattle.tree_nodes.specs.Nodes.{bare};
ghost use Rattle.tree_nodes.specs.Entries.{Has, root_of, entry_of};
ghost use Rattle.tree_nodes.specs.Shown.{Placed, KeyedLinks, Shows};

use crate::superblock::EMPTY;
use dtype::{Dims, ElemType, Shape};
use h5_base::{Bytes, LinkName};
use header_codec::{Fill, Layout};
use std::alloc::Global;
use std::test::Fail;
use tree_nodes::{Node, NodeId, ObjectTree};

/// One more node behind a new name of the root.
fn add(alloc: Global, tree: &mut ObjectTree, name: &[u8], node: Node) -> Result<NodeId, Fail>
    requires { (x : Placed) × (ls : KeyedLinks) × Shows tree.old (Group x ls) }
    ensures shown { OnOk result ((x : Placed) × (ls : KeyedLinks) × Shows tree.new (Group x ls)) }
    ensures made { IfOk result (λ id. entry_of tree.new id.key ≡ Some (bare node)) }
{
    let root = tree.root();
    let name = LinkName::from_slice(alloc, name)?;
    tree.reserve(root)?;
    match tree.child(root, &name) {
        None => Ok(tree.insert(root, name, node)),
        Some(_) => Err(Fail::new("the name is there")),
    }
}

/// The name of the root and its node go.
fn take(alloc: Global, tree: &mut ObjectTree, name: &[u8]) -> Result<(), Fail>
    requires { (x : Placed) × (ls : KeyedLinks) × Shows tree.old (Group x ls) }
    ensures shown { OnOk result ((x : Placed) × (ls : KeyedLinks) × Shows tree.new (Group x ls)) }
{
    let root = tree.root();
    let name = LinkName::from_slice(alloc, name)?;
    match tree.child(root, &name) {
        Some(child) if tree.links(child) == 0 => tree.remove(root, &name),
        _ => return Err(Fail::new("the name is not there, or has links")),
    }
    Ok(())
}

/// Whether the root has so many links, the first of them with this name.
fn lists(tree: &ObjectTree, links: u64, first: &[u8]) -> bool
    requires { Has tree.now (root_of tree.now) }
{
    match tree.child_at(tree.root(), 0) {
        Some(link) => tree.links(tree.root()) == links && link.name.as_slice() == first,
        None => false,
    }
}

/// A group with a few nodes, one of which goes again, and a dataset that is moved and grown.
#[test]
fn small_tree(rt: HostRuntime) -> Result<(), Fail> {
    let alloc = rt.alloc();
    let group = Node::Group {
        header_at: 96,
        tree_at: 136,
        heap_at: 680,
    };
    let mut tree = ObjectTree::empty(alloc, EMPTY, group)?;
    assert!(rt; tree.superblock().end_at == 800 && tree.objects() == 1);
    let inner = Node::Group {
        header_at: 800,
        tree_at: 840,
        heap_at: 1384,
    };
    add(alloc, &mut tree, b"m", inner)?;
    let text = Bytes::from_slice(alloc, b"/m")?;
    add(alloc, &mut tree, b"to", Node::Soft { text })?;
    add(alloc, &mut tree, b"a", Node::Other { header_at: 2000 })?;
    assert!(rt; lists(&tree, 3, b"a") && tree.objects() == 3);
    take(alloc, &mut tree, b"m")?;
    let data = Node::Dataset {
        header_at: 3000,
        shape: Shape {
            dims: Dims::from_slice(alloc, &[2, 3])?,
            max: None,
        },
        elem: ElemType::Int {
            size: 1,
            signed: false,
            big: false,
        },
        fill: Fill::Zeros,
        layout: Layout::Contiguous { at: 0, len: 6 },
        filtered: false,
    };
    let id = add(alloc, &mut tree, b"b", data)?;
    assert!(rt; lists(&tree, 3, b"a") && tree.objects() == 3);
    tree.set_layout(id, Layout::Contiguous { at: 4096, len: 20 });
    tree.set_dims(id, Dims::from_slice(alloc, &[4, 5])?);
    match tree.node(id) {
        Node::Dataset {
            shape,
            layout: Layout::Contiguous { at, len },
            ..
        } => {
            assert!(rt; (*at, *len) == (4096, 20) && shape.dims.as_slice() == [4, 5].as_slice());
        }
        _ => assert!(rt; false),
    }
    Ok(())
}
