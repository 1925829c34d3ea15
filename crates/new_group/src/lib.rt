//! The plan of a new empty group: its header, the root of its B-tree, its local heap and the heap's segment.
#![tactic(auto)]

mod blocks;
mod laws;
mod new_group;
mod places;

pub use laws::empty_stays;
pub use new_group::{NewGroup, plan_group};
