//! The plan of an edit is put together from the bytes that blocks have once it is done.
#![tactic(auto)]

mod changed;
mod image;
mod laws;
mod needs;
mod plan;

pub use image::{Image, NewBlock};
pub use laws::{plan_fits, plan_has, plan_stays};
pub use needs::{no_needs, with_block};
pub use plan::make_plan;
