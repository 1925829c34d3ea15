//! One link more or one link fewer in a group of a file, over any space: planned, and done.
#![tactic(auto)]

mod applying;
mod checking;
mod draft;
mod growing;
mod inserting;
mod removing;
mod target;

pub use applying::{apply_insert, apply_remove};
pub use group_rows::{GroupAt, list_links};
pub use inserting::{NewLink, plan_insert};
pub use removing::plan_remove;
pub use target::{NewTarget, entry_to};
