//! One file of a store as a space of addresses.
#![tactic(auto)]

mod opening;
mod part;
mod space;

pub use opening::OpenRefused;
pub use space::PlainSpace;
