//! What the commands that only look at the tree are answered from the tree of an opened file.
#![tactic(auto)]

mod answers;
pub mod laws;
mod nodes;
mod paths;

pub use answers::answer;
pub use object_model::{Answer, Command};
pub use tree_nodes::ObjectTree;
