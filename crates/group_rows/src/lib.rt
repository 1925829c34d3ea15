//! Reads a group again, whose blocks are in the catalogue already: row by row, each block once.
#![tactic(auto)]

mod block;
mod gathered;
mod group;
mod heap;
mod leaf;
mod link;
mod list;
mod offsets;
mod reading;
mod row;
mod tree;

pub use group::{GroupAt, GroupRead};
pub use list::list_links;
pub use offsets::greatest;
pub use reading::read_group;
