//! HDF5's object tree, and what each command of the script language does to it.
#![tactic(auto)]

mod answer;
mod command;
pub mod laws;
mod path;

pub use answer::{Answer, Code, LinkLine, Shown};
pub use command::Command;
pub use path::Path;
