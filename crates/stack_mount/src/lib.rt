//! A plain file is mounted as a space, or refused.
#![tactic(auto)]

mod faults;
mod judging;
pub mod laws;
mod mounting;

pub use faults::{MountFault, MountRefused};
pub use mounting::mount;
