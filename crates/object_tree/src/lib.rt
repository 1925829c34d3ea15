//! The tree of a file's objects, read whole and once when the file is opened, from any bytes.
#![tactic(auto)]

mod growing;
mod nodes;
mod open;
mod opening;

pub use open::{TreeStop, open_tree};
pub use tree_nodes::{ChildLink, Node, NodeId, ObjectTree};
