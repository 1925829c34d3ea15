//! Where a name stands among the entries of a group, which ascend by their names, and what one entry more or one fewer
//! leaves.
#![tactic(auto)]

mod laws;
mod places;

pub use laws::{
    links_insert, links_remove, name_found, name_lacking, offsets_insert, offsets_remove,
    one_fewer, one_more, order_insert, order_remove,
};
pub use places::{is_named, place_of};
