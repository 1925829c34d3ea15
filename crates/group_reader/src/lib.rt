//! Reads the links of a group: its local heap, its B-tree and the symbol table nodes under it.
#![tactic(auto)]

mod budget;
mod entries;
mod gathered;
mod heap;
mod index;
mod keys;
mod leaf;
mod link;
mod links;
mod names;
mod node;
mod table;
mod text;

pub use budget::TextBudget;
pub use link::{FoundLink, LinkTarget};
pub use links::read_links;
pub use text::{text_at, text_before};
