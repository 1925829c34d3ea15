ghost use Rattle.std.specs.Prelude.{◌≡◌, ◌≢◌, ◌+◌, ◌^◌, ◌<◌, Some, None, IsSome, OnOk, ℕ, if◌then◌else◌};
ghost use Rattle.slab.specs.Slab.{get, HasRoomFor};
ghost use Rattle.object_model.specs.Tree.{AreOrdered};
ghost use Rattle.tree_nodes.specs.Nodes.{Kept, bare, is_object, objects_at, link_names, find_link, insert_link};
ghost use Rattle.tree_nodes.specs.Nodes.{remove_link, with_layout, with_dims};
ghost use Rattle.tree_nodes.specs.Slots.{kept_in, objects_in, IsRoomy, IsRoomyAt};

use crate::entry::Entry;
use crate::node::{ChildLink, Node, NodeId};
use crate::places::{add_link, take_link};
use dtype::Dims;
use h5_base::LinkName;
use header_codec::Layout;
use slab::Slab;
use std::alloc::{AllocError, Global};

fn make_link_room(nodes: &mut Slab<Entry>, key: usize) -> Result<(), AllocError>
    ensures room { OnOk result (IsRoomy (get nodes.new key)) }
    ensures kept { (k : ℕ) → kept_in nodes.new k ≡ kept_in nodes.old k }
    ensures objects { objects_in nodes.new.slots ≡ objects_in nodes.old.slots }
{
    match nodes.get_mut(key) {
        Some(entry) => entry.links.reserve(1),
        None => Ok(()),
    }
}

/// Room for one more link under the key, and for one more node.
pub(crate) fn make_room(nodes: &mut Slab<Entry>, key: usize) -> Result<(), AllocError>
    ensures room { OnOk result (IsRoomyAt nodes.new key) }
    ensures kept { (k : ℕ) → kept_in nodes.new k ≡ kept_in nodes.old k }
    ensures objects { objects_in nodes.new.slots ≡ objects_in nodes.old.slots }
{
    make_link_room(nodes, key)?;
    nodes.reserve(1)
}

/// A node without links, under a free key.
pub(crate) fn add_node(alloc: Global, nodes: &mut Slab<Entry>, node: Node) -> usize
    requires { HasRoomFor nodes.old 1 }
    ensures fresh { get nodes.old result ≡ None }
    ensures made { kept_in nodes.new result ≡ Some (bare node) }
    ensures others { (k : ℕ) → k ≢ result → get nodes.new k ≡ get nodes.old k }
    ensures objects { objects_in nodes.new.slots ≡ objects_in nodes.old.slots + objects_at node }
    ensures fits { objects_in nodes.new.slots < 2 ^ 64 }
{
    let key = nodes.insert_reserved(Entry {
        node,
        links: Vec::new(alloc),
    });
    // As many nodes as a usize can count.
    let _len = nodes.len();
    key
}

/// One link more under the key.
pub(crate) fn link(nodes: &mut Slab<Entry>, key: usize, link: ChildLink)
    requires { IsRoomy (get nodes.old key) }
    ensures linked { (e : Kept) → kept_in nodes.old key ≡ Some e → AreOrdered (link_names e.links)
        → find_link e.links link.name ≡ None
        → kept_in nodes.new key ≡ Some (record { node = e.node; links = insert_link e.links link }) }
    ensures others { (k : ℕ) → k ≢ key → kept_in nodes.new k ≡ kept_in nodes.old k }
    ensures objects { objects_in nodes.new.slots ≡ objects_in nodes.old.slots }
{
    if let Some(entry) = nodes.get_mut(key) {
        add_link(&mut entry.links, link);
    }
}

/// One link fewer under the key, and the node that it led to.
pub(crate) fn unlink(nodes: &mut Slab<Entry>, key: usize, name: &LinkName) -> Option<NodeId>
    ensures found { (e : Kept) → kept_in nodes.old key ≡ Some e → AreOrdered (link_names e.links)
        → result ≡ find_link e.links name.now }
    ensures unlinked { (e : Kept) → kept_in nodes.old key ≡ Some e → AreOrdered (link_names e.links)
        → kept_in nodes.new key ≡ Some (record { node = e.node; links = remove_link e.links name.now }) }
    ensures others { (k : ℕ) → k ≢ key → kept_in nodes.new k ≡ kept_in nodes.old k }
    ensures objects { objects_in nodes.new.slots ≡ objects_in nodes.old.slots }
{
    match nodes.get_mut(key) {
        Some(entry) => take_link(&mut entry.links, name),
        None => None,
    }
}

/// The node under the key goes. Whether it was an object.
pub(crate) fn remove_node(nodes: &mut Slab<Entry>, key: usize) -> bool
    ensures gone { kept_in nodes.new key ≡ None }
    ensures others { (k : ℕ) → k ≢ key → kept_in nodes.new k ≡ kept_in nodes.old k }
    ensures was { (e : Kept) → kept_in nodes.old key ≡ Some e → result ≡ is_object e.node }
    ensures objects { objects_in nodes.new.slots + (if result then 1 else 0) ≡ objects_in nodes.old.slots }
{
    match nodes.try_remove(key) {
        Some(entry) => entry.node.is_object(),
        None => false,
    }
}

/// Another layout for the dataset under the key.
pub(crate) fn set_layout(nodes: &mut Slab<Entry>, key: usize, layout: Layout)
    ensures changed { (e : Kept) → kept_in nodes.old key ≡ Some e
        → kept_in nodes.new key ≡ Some (record { node = with_layout layout e.node; links = e.links }) }
    ensures others { (k : ℕ) → k ≢ key → kept_in nodes.new k ≡ kept_in nodes.old k }
    ensures objects { objects_in nodes.new.slots ≡ objects_in nodes.old.slots }
{
    if let Some(entry) = nodes.get_mut(key) {
        entry.node.set_layout(layout);
    }
}

/// Other sizes for the dataset under the key.
pub(crate) fn set_dims(nodes: &mut Slab<Entry>, key: usize, dims: Dims)
    ensures changed { (e : Kept) → kept_in nodes.old key ≡ Some e
        → kept_in nodes.new key ≡ Some (record { node = with_dims dims e.node; links = e.links }) }
    ensures others { (k : ℕ) → k ≢ key → kept_in nodes.new k ≡ kept_in nodes.old k }
    ensures objects { objects_in nodes.new.slots ≡ objects_in nodes.old.slots }
{
    if let Some(entry) = nodes.get_mut(key) {
        entry.node.set_dims(dims);
    }
}
