//! A session over an opened file: its tree is kept, and lines are answered from it and edit the file.
#![tactic(auto)]

mod doing;
mod making;
mod places;
mod removing;
mod session;
mod stop;

pub use session::{ResumeRefused, Session};
pub use stop::StepStop;
