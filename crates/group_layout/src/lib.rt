//! How the links of a group are laid over the nodes of its index.
#![tactic(auto)]

mod keys;
pub mod laws;
mod laying;
mod leaves;
mod nodes;
mod row;
mod widening;

pub use laying::lay;
pub use row::{IndexRows, Laid, Row};
pub use widening::{stay, widen};
