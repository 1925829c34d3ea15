ghost use Rattle.std.specs.Prelude.{◌≡◌};
ghost use Rattle.tree_nodes.specs.Slots.{objects_in};

use crate::entry::Entry;
use crate::node::{ChildLink, Node, NodeId};
use crate::{places, slots};
use dtype::Dims;
use h5_base::{LinkName, NoMemory};
use header_codec::Layout;
use slab::Slab;
use std::alloc::Global;
use super_codec::Superblock;

/// The object tree of an opened file: its superblock, and its nodes, each under a key.
#[derive(Debug, Drop)]
pub struct ObjectTree {
    alloc: Global,
    superblock: Superblock,
    nodes: Slab<Entry>,
    root: NodeId,
    objects: u64,
    ghost counted: { objects ≡ objects_in nodes.slots },
}

impl ObjectTree {
    ghost use Rattle.std.specs.Prelude.{◌≢◌, ◌+◌, ◌<◌, List, ℕ, Some, None, Ok, true, false, length, slice_get};
    ghost use Rattle.std.specs.Prelude.{option_copied, IfOk, OnOk};
    ghost use Rattle.object_model.specs.Tree.{Name, AreOrdered, walk, edit, relink, insert, remove};
    ghost use Rattle.tree_nodes.specs.Nodes.{Kept, bare, is_group, link_names, find_link, with_layout, with_dims};
    ghost use Rattle.tree_nodes.specs.Entries.{superblock_of, root_of, object_count, entry_of, Has, HasDataset};
    ghost use Rattle.tree_nodes.specs.Entries.{LacksLink, HasLooseLink, HasRoom, Same, Inserts, Removes, Sets};
    ghost use Rattle.tree_nodes.specs.Shown.{Keyed, Shows, key_of, node_of, links_of, child_id, objects_of, single};
    ghost use Rattle.tree_nodes.specs.Shown.{on_leaf};

    /// The tree of one group without links.
    pub fn empty(alloc: Global, superblock: Superblock, root: Node) -> Result<ObjectTree, NoMemory>
        requires { is_group root ≡ true }
        ensures superblock { IfOk result (λ t. superblock_of t ≡ superblock) }
        ensures root { IfOk result (λ t. entry_of t (root_of t).key ≡ Some (bare root)) }
        ensures others { IfOk result (λ t. (k : ℕ) → k ≢ (root_of t).key → entry_of t k ≡ None) }
        ensures objects { IfOk result (λ t. object_count t ≡ 1) }
        ensures tree { IfOk result (λ t. Shows t (single (root_of t).key root)) }
    {
        let mut nodes = Slab::new(alloc);
        if nodes.reserve(1).is_err() {
            return Err(NoMemory);
        }
        let key = slots::add_node(alloc, &mut nodes, root);
        Ok(ObjectTree {
            alloc,
            superblock,
            nodes,
            root: NodeId { key },
            objects: 1,
        })
    }

    /// The file's superblock.
    pub fn superblock(&self) -> &Superblock
        ensures { result.now ≡ superblock_of self.now }
    {
        &self.superblock
    }

    /// The root group.
    pub fn root(&self) -> NodeId
        ensures { result ≡ root_of self.now }
    {
        self.root
    }

    /// How many groups, datasets and other objects there are. Soft links don't count.
    pub fn objects(&self) -> u64
        ensures count { result ≡ object_count self.now }
        ensures tree { (t : Keyed) → Shows self.now t → result ≡ objects_of t }
    {
        self.objects
    }

    fn entry(&self, id: NodeId) -> &Entry
        requires { Has self.now id }
        ensures { entry_of self.now id.key ≡ Some (record { node = result.now.node; links = result.now.links.items }) }
    {
        match self.nodes.get(id.key) {
            Some(entry) => entry,
            None => unreachable!(),
        }
    }

    /// What the file holds at the node.
    pub fn node(&self, id: NodeId) -> &Node
        requires { Has self.now id }
        ensures entry { (e : Kept) → entry_of self.now id.key ≡ Some e → result.now ≡ e.node }
        ensures tree { (t u : Keyed) (p : List Name) → Shows self.now t → walk t p ≡ Ok u → key_of u ≡ id.key
            → result.now ≡ node_of u }
    {
        &self.entry(id).node
    }

    /// How many links the node has: none where it is no group.
    pub fn links(&self, id: NodeId) -> u64
        requires { Has self.now id }
        ensures entry { (e : Kept) → entry_of self.now id.key ≡ Some e → result ≡ length e.links }
        ensures tree { (t u : Keyed) (p : List Name) → Shows self.now t → walk t p ≡ Ok u → key_of u ≡ id.key
            → result ≡ length (links_of u) }
    {
        self.entry(id).links.len() as u64
    }

    /// The node behind a name.
    pub fn child(&self, id: NodeId, name: &LinkName) -> Option<NodeId>
        requires { Has self.now id }
        ensures entry { (e : Kept) → entry_of self.now id.key ≡ Some e → AreOrdered (link_names e.links)
            → result ≡ find_link e.links name.now }
        ensures tree { (t u : Keyed) (p : List Name) → Shows self.now t → walk t p ≡ Ok u → key_of u ≡ id.key
            → result ≡ child_id u name.now }
    {
        places::find(&self.entry(id).links, name)
    }

    /// The link at a place in name order, from 0.
    pub fn child_at(&self, id: NodeId, k: u64) -> Option<&ChildLink>
        requires { Has self.now id }
        ensures entry { (e : Kept) → entry_of self.now id.key ≡ Some e → option_copied result ≡ slice_get e.links k }
        ensures tree { (t u : Keyed) (p : List Name) → Shows self.now t → walk t p ≡ Ok u → key_of u ≡ id.key
            → option_copied result ≡ slice_get (links_of u) k }
    {
        places::link_at(&self.entry(id).links, k as usize)
    }

    /// Makes room for one more link of the node, and for the node that it leads to.
    pub fn reserve(&mut self, id: NodeId) -> Result<(), NoMemory>
        requires { Has self.old id }
        ensures room { OnOk result (HasRoom self.new id) }
        ensures same { Same self.old self.new }
        ensures tree { (t : Keyed) → Shows self.old t → Shows self.new t }
    {
        match slots::make_room(&mut self.nodes, id.key) {
            Ok(()) => Ok(()),
            Err(_) => Err(NoMemory),
        }
    }

    /// A new node behind a new name of the group. It takes no memory.
    pub fn insert(&mut self, id: NodeId, name: LinkName, node: Node) -> NodeId
        requires room { HasRoom self.old id }
        requires lacks { LacksLink self.old id name }
        ensures entry { Inserts self.old self.new id.key name result.key node }
        ensures tree { (t u : Keyed) (p : List Name) → Shows self.old t → walk t p ≡ Ok u → key_of u ≡ id.key
            → Shows self.new (edit p (relink (λ ls. insert ls name (single result.key node))) t) }
    {
        let added = u64::from(node.is_object());
        let key = slots::add_node(self.alloc, &mut self.nodes, node);
        self.objects += added;
        let new = NodeId { key };
        slots::link(&mut self.nodes, id.key, ChildLink { name, node: new });
        new
    }

    /// The link of this name goes, and the node that it led to. It takes no memory.
    pub fn remove(&mut self, id: NodeId, name: &LinkName)
        requires { HasLooseLink self.old id name.now }
        ensures superblock { superblock_of self.new ≡ superblock_of self.old }
        ensures root { root_of self.new ≡ root_of self.old }
        ensures entry { (e : Kept) (child : NodeId) → entry_of self.old id.key ≡ Some e
            → AreOrdered (link_names e.links)
            → find_link e.links name.now ≡ Some child → Removes self.old self.new id.key name.now child.key }
        ensures tree { (t u : Keyed) (p : List Name) → Shows self.old t → walk t p ≡ Ok u → key_of u ≡ id.key
            → Shows self.new (edit p (relink (λ ls. remove ls name.now)) t) }
    {
        if let Some(child) = slots::unlink(&mut self.nodes, id.key, name) {
            let gone = u64::from(slots::remove_node(&mut self.nodes, child.key));
            self.objects -= gone;
        }
    }

    /// Another layout for the dataset. It takes no memory.
    pub fn set_layout(&mut self, id: NodeId, layout: Layout)
        requires { HasDataset self.old id }
        ensures entry { Sets self.old self.new id.key (with_layout layout) }
        ensures tree { (t u : Keyed) (p : List Name) → Shows self.old t → walk t p ≡ Ok u → key_of u ≡ id.key
            → Shows self.new (edit p (on_leaf (with_layout layout)) t) }
    {
        slots::set_layout(&mut self.nodes, id.key, layout);
    }

    /// Other sizes for the dataset, whose maximum sizes stay. It takes no memory.
    pub fn set_dims(&mut self, id: NodeId, dims: Dims)
        requires { HasDataset self.old id }
        ensures entry { Sets self.old self.new id.key (with_dims dims) }
        ensures tree { (t u : Keyed) (p : List Name) → Shows self.old t → walk t p ≡ Ok u → key_of u ≡ id.key
            → Shows self.new (edit p (on_leaf (with_dims dims)) t) }
    {
        slots::set_dims(&mut self.nodes, id.key, dims);
    }
}
