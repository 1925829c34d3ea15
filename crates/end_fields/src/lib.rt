//! The end field of a superblock: where it stands, whether it tells the end of the file, and how it is written. No
//! memory is taken.
#![tactic(auto)]

mod ends;
mod field;
mod laws;

pub use ends::logical_end;
pub use field::{end_range, put_end, tells_end, write_end};
pub use laws::{blocks_stay, end_held, end_plans, end_put, field_in_super, flush_line, one_end};
