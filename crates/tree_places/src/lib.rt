//! What a path leads to in the tree of an opened file, and the tree with one link more or one fewer.
#![tactic(auto)]

mod editing;
mod finding;
pub mod laws;

pub use editing::{insert_node, remove_node, reserve_link};
pub use finding::{child_of, dir_of, find_node, group_to_add, group_to_remove, last_of};
pub use object_tree::{Node, NodeId, ObjectTree};
