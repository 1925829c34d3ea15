//! The object tree of an opened file: its nodes in a slab, each under a key, and each group's links in name order.
#![tactic(auto)]

mod entry;
pub mod laws;
mod node;
mod places;
mod slots;
mod tree;

pub use node::{ChildLink, Node, NodeId};
pub use tree::ObjectTree;
