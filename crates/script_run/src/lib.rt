//! The run of a script that only looks at a tree: each line is read, answered and printed.
#![tactic(auto)]

pub mod laws;
mod line;
mod run;
mod stop;

pub use run::answer_script;
pub use stop::{Ended, ScriptStop};
