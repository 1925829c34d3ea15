//! The script language: lines read as commands, and answers printed.
#![tactic(auto)]

mod answers;
mod arguments;
mod commands;
pub mod laws;
mod lines;
mod mkdata;
mod numbers;
mod paths;
mod stop;
mod symbols;
mod texts;
mod types;
mod values;
mod words;

pub use answers::print_answer;
pub use lines::read_line;
pub use object_model::{Answer, Code, Command, LinkLine, Path, Shown};
pub use stop::LineStop;
