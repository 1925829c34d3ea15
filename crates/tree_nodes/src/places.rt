ghost use Rattle.std.specs.Prelude.{◌≡◌, ◌≤◌, ◌<◌, None, IfSome, length, slice_get, option_copied, vec_len};
ghost use Rattle.std.specs.Prelude.{vec_capacity};
ghost use Rattle.object_model.specs.Tree.{AreOrdered, name_lt};
ghost use Rattle.tree_nodes.specs.Nodes.{link_names, find_link, insert_link, remove_link, place_in, IsLinkAt};

use crate::node::{ChildLink, NodeId};
use h5_base::LinkName;

/// Whether the link's name comes before this one, by unsigned bytes.
fn comes_before(link: &ChildLink, name: &LinkName) -> bool
    ensures { result ≡ name_lt link.now.name name.now }
{
    link.name.as_slice().cmp(&name.as_slice()).is_lt()
}

/// How many links come before the name.
fn place_of(links: &[ChildLink], name: &LinkName) -> usize
    ensures within { result ≤ length links.now }
    ensures place { AreOrdered (link_names links.now) → result ≡ place_in links.now name.now }
{
    links.partition_point(
        |link: &ChildLink| -> bool
            ensures { result ≡ name_lt link.now.name name.entry.now }
        { comes_before(link, name) },
    )
}

/// Which link has the name.
fn position_of(links: &[ChildLink], name: &LinkName) -> Option<usize>
    ensures found { IfSome result (λ i. i < length links.now) }
    ensures position { AreOrdered (link_names links.now) → IsLinkAt links.now name.now result }
{
    let place = place_of(links, name);
    if place < links.len() && links[place].name.as_slice() == name.as_slice() {
        Some(place)
    } else {
        None
    }
}

/// The node behind a name.
pub(crate) fn find(links: &[ChildLink], name: &LinkName) -> Option<NodeId>
    ensures { AreOrdered (link_names links.now) → result ≡ find_link links.now name.now }
{
    match position_of(links, name) {
        Some(i) => Some(links[i].node),
        None => None,
    }
}

/// The link at a place, from 0.
pub(crate) fn link_at(links: &[ChildLink], place: usize) -> Option<&ChildLink>
    ensures { option_copied result ≡ slice_get links.now place }
{
    links.get(place)
}

/// One link more, at its place.
pub(crate) fn add_link(links: &mut Vec<ChildLink>, link: ChildLink)
    requires { vec_len links.old < vec_capacity links.old }
    ensures { AreOrdered (link_names links.old.items) → find_link links.old.items link.name ≡ None
        → links.new.items ≡ insert_link links.old.items link }
{
    let place = place_of(links.as_slice(), &link.name);
    match links.insert(place, link) {
        Ok(()) => {}
        Err(_) => unreachable!(),
    }
}

/// One link fewer, and the node that it led to.
pub(crate) fn take_link(links: &mut Vec<ChildLink>, name: &LinkName) -> Option<NodeId>
    ensures found { AreOrdered (link_names links.old.items) → result ≡ find_link links.old.items name.now }
    ensures rest { AreOrdered (link_names links.old.items) → links.new.items ≡ remove_link links.old.items name.now }
{
    match position_of(links.as_slice(), name) {
        Some(i) => Some(links.remove(i).node),
        None => None,
    }
}
