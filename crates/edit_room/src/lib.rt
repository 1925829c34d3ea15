//! The limits and the room of an edit: which ranges its plan touches, whether it passes a limit, and room for it in the
//! regions, the space and the catalogue, all of it before the edit's first write.
#![tactic(auto)]

mod laws;
mod reserving;
mod stop;
mod touching;

pub use laws::touched_laws;
pub use reserving::reserve_edit;
pub use stop::RoomStop;
pub use touching::touched_ranges;
