ghost use Rattle.std.specs.Prelude.{◌≡◌, List, IfOk, OnOk};
ghost use Rattle.object_model.specs.Tree.{Name, last_of};
ghost use Rattle.file_model.specs.Holds.{Full, GroupAt};
ghost use Rattle.tree_nodes.specs.Entries.{superblock_of, Has, HasRoom, Inserts, Same};
ghost use Rattle.tree_nodes.specs.Shown.{Keyed, Shows, single};
ghost use Rattle.header_reader.specs.Told.{IsSoundNode};
ghost use Rattle.object_tree.specs.Opened.{Matches};
ghost use Rattle.object_tree.specs.Sound.{IsSoundTree};
ghost use Rattle.tree_places.specs.Places.{add_place, remove_place};
ghost use Rattle.tree_places.specs.Kept.{CanAdd, CanRemove, HasPlaces, LeavesParent};

use h5_base::{LinkName, NoMemory};
use std::alloc::Global;
use tree_nodes::{Node, NodeId, ObjectTree};

/// Makes room for one more link of the group and for its node, and copies its name, so that `insert_node` takes no
/// memory. All is kept as before, also where there is no memory.
pub fn reserve_link(
    alloc: Global,
    tree: &mut ObjectTree,
    group: NodeId,
    name: &LinkName,
) -> Result<LinkName, NoMemory>
    requires { Has tree.old group }
    ensures name { IfOk result (λ copy. copy ≡ name.now) }
    ensures room { OnOk result (HasRoom tree.new group) }
    ensures same { Same tree.old tree.new }
{
    let copy = LinkName::from_slice(alloc, name.as_slice())?;
    tree.reserve(group)?;
    Ok(copy)
}

/// A new node behind a new name of the group. It takes no memory.
pub fn insert_node(tree: &mut ObjectTree, group: NodeId, name: LinkName, node: Node) -> NodeId
    requires sound { IsSoundTree tree.old }
    requires node { IsSoundNode node }
    requires room { HasRoom tree.old group }
    requires can { (p : List Name) × (last_of p ≡ name) × CanAdd tree.old p group }
    ensures sound { IsSoundTree tree.new }
    ensures entry { Inserts tree.old tree.new group.key name result.key node }
    ensures keyed { (p : List Name) (t : Keyed) → last_of p ≡ name → CanAdd tree.old p group → Shows tree.old t
        → Shows tree.new (add_place (λ x. x) p (single result.key node) t) }
    // Where the file has this new place too, and its parent stays where it is, the tree of places is kept.
    ensures places { (p : List Name) (f : GroupAt → GroupAt) (t u : Full) → last_of p ≡ name
        → CanAdd tree.old p group → HasPlaces tree.old t → LeavesParent f p t → Matches (single result.key node) u
        → HasPlaces tree.new (add_place f p u t) }
{
    tree.insert(group, name, node)
}

/// The link of this name goes, and the node that it led to. It takes no memory.
pub fn remove_node(tree: &mut ObjectTree, group: NodeId, name: &LinkName)
    requires sound { IsSoundTree tree.old }
    requires can { (p : List Name) × (last_of p ≡ name.now) × CanRemove tree.old p group }
    ensures sound { IsSoundTree tree.new }
    ensures superblock { superblock_of tree.new ≡ superblock_of tree.old }
    ensures keyed { (p : List Name) (t : Keyed) → last_of p ≡ name.now → CanRemove tree.old p group
        → Shows tree.old t → Shows tree.new (remove_place (λ x. x) p t) }
    // Where the file has this place no more, and its parent stays where it is, the tree of places is kept.
    ensures places { (p : List Name) (f : GroupAt → GroupAt) (t : Full) → last_of p ≡ name.now
        → CanRemove tree.old p group → HasPlaces tree.old t → LeavesParent f p t
        → HasPlaces tree.new (remove_place f p t) }
{
    tree.remove(group, name);
}
