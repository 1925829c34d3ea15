ghost use Rattle.std.specs.Prelude.{◌≡◌, ◌<◌, ℕ, List, Some, IfOk, length};
ghost use Rattle.object_model.specs.Tree.{Name, walk, dir_of, last_of};
ghost use Rattle.file_model.specs.Holds.{Full};
ghost use Rattle.tree_nodes.specs.Nodes.{Kept};
ghost use Rattle.tree_nodes.specs.Entries.{entry_of, Has, LacksLink, HasLooseLink};
ghost use Rattle.tree_nodes.specs.Shown.{Keyed, Shows, key_of};
ghost use Rattle.object_tree.specs.Sound.{IsSoundTree};
ghost use Rattle.tree_places.specs.Places.{lacking, loosely, to_add, to_remove};
ghost use Rattle.tree_places.specs.Kept.{child_in, Finds, FindsPlace, HasPlaces, CanAdd, CanRemove};

use h5_base::LinkName;
use object_model::Code;
use tree_nodes::{Node, NodeId, ObjectTree};

/// The names of a path before the last.
pub fn dir_of(path: &[LinkName]) -> &[LinkName]
    requires { 0 < length path.now }
    ensures { result.now ≡ dir_of path.now }
{
    &path[..path.len() - 1]
}

/// The last name of a path.
pub fn last_of(path: &[LinkName]) -> &LinkName
    requires { 0 < length path.now }
    ensures { result.now ≡ last_of path.now }
{
    &path[path.len() - 1]
}

/// What a name of a node leads to: `NotGroup` where the node is no group, `Absent` where the group has no such name.
pub fn child_of(tree: &ObjectTree, id: NodeId, name: &LinkName) -> Result<NodeId, Code>
    requires sound { IsSoundTree tree.now }
    requires has { Has tree.now id }
    ensures entry { (e : Kept) → entry_of tree.now id.key ≡ Some e → result ≡ child_in e name.now }
    ensures has { IfOk result (Has tree.now) }
{
    match tree.node(id) {
        Node::Group { .. } => tree.child(id, name).ok_or(Code::Absent),
        _ => Err(Code::NotGroup),
    }
}

/// What a path leads to, or the first refusal along it.
pub fn find_node(tree: &ObjectTree, path: &[LinkName]) -> Result<NodeId, Code>
    requires { IsSoundTree tree.now }
    ensures found { (t : Keyed) → Shows tree.now t → Finds (walk t path.now) result }
    ensures places { (t : Full) → HasPlaces tree.now t → FindsPlace tree.now (walk t path.now) result }
    ensures has { IfOk result (Has tree.now) }
{
    let mut id = tree.root();
    for name in path {
        id = child_of(tree, id, name)?;
    }
    Ok(id)
}

// The group, where it has no link of this name.
fn lacking(tree: &ObjectTree, id: NodeId, name: &LinkName) -> Result<NodeId, Code>
    requires sound { IsSoundTree tree.now }
    requires has { Has tree.now id }
    ensures found { (t u : Keyed) (p : List Name) → Shows tree.now t → walk t p ≡ Ok u → key_of u ≡ id.key
        → Finds (lacking u name.now) result }
    ensures lacks { IfOk result (λ group. (group ≡ id) × LacksLink tree.now id name.now) }
{
    match tree.node(id) {
        Node::Group { .. } => match tree.child(id, name) {
            Some(_) => Err(Code::Exists),
            None => Ok(id),
        },
        _ => Err(Code::NotGroup),
    }
}

// The group, where its link of this name leads to a node without links.
fn loosely(tree: &ObjectTree, id: NodeId, name: &LinkName) -> Result<NodeId, Code>
    requires sound { IsSoundTree tree.now }
    requires has { Has tree.now id }
    ensures found { (t u : Keyed) (p : List Name) → Shows tree.now t → walk t p ≡ Ok u → key_of u ≡ id.key
        → Finds (loosely u name.now) result }
    ensures loose { IfOk result (λ group. (group ≡ id) × HasLooseLink tree.now id name.now) }
{
    let child = child_of(tree, id, name)?;
    if tree.links(child) > 0 {
        Err(Code::NotEmpty)
    } else {
        Ok(id)
    }
}

/// The group to which a path's last name can be added, as `mkgroup` and `mkdata` do it: the parent, or the first
/// refusal: `Absent` or `NotGroup` along the path, `NotGroup` where the parent is no group, `Exists` where the name is
/// there.
pub fn group_to_add(tree: &ObjectTree, path: &[LinkName]) -> Result<NodeId, Code>
    requires sound { IsSoundTree tree.now }
    requires named { 0 < length path.now }
    ensures found { (t : Keyed) → Shows tree.now t → Finds (to_add t path.now) result }
    ensures places { (t : Full) → HasPlaces tree.now t → FindsPlace tree.now (to_add t path.now) result }
    ensures can { IfOk result (CanAdd tree.now path.now) }
{
    let parent = find_node(tree, dir_of(path))?;
    lacking(tree, parent, last_of(path))
}

/// The group from which a path's last name can be removed, as `rm` does it: the parent, or the first refusal: `Absent`
/// or `NotGroup` along the path, `NotEmpty` where the path leads to a group with links.
pub fn group_to_remove(tree: &ObjectTree, path: &[LinkName]) -> Result<NodeId, Code>
    requires sound { IsSoundTree tree.now }
    requires named { 0 < length path.now }
    ensures found { (t : Keyed) → Shows tree.now t → Finds (to_remove t path.now) result }
    ensures places { (t : Full) → HasPlaces tree.now t → FindsPlace tree.now (to_remove t path.now) result }
    ensures can { IfOk result (CanRemove tree.now path.now) }
{
    let parent = find_node(tree, dir_of(path))?;
    loosely(tree, parent, last_of(path))
}
