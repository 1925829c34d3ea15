ghost use Rattle.std.specs.Prelude.{◌≡◌};
ghost use Rattle.h5stack_core.specs.Endings.{told, stopped};

use crate::words::WordFault;
use h5_base::{Refusal, Stop};

/// How the program ended.
#[derive(Clone, Copy, Debug, PartialEq, Eq)]
pub enum Ending {
    /// All was done, and each line of a script.
    Done,
    /// The script was read to its end, and some line was refused.
    SomeNot,
    /// The words are refused.
    Words { fault: WordFault },
    /// A call of the store failed.
    Store,
    /// The file is refused.
    Refused { why: Refusal },
    /// A call of the script's source failed.
    Input,
    /// A call of the output failed.
    Output,
    /// There was no memory before anything was done.
    Memory,
    /// There was no memory for a line of a script; those before it were done, and the file was closed.
    ScriptMemory,
    /// 4,294,967,296 bytes of the script were taken before its end was.
    Limit,
}

impl Ending {
    /// The exit status.
    pub fn status(self) -> u8
        ensures { result ≡ (told self).status }
    {
        match self {
            Ending::Done => 0,
            Ending::SomeNot => 1,
            Ending::Words { .. } => 2,
            Ending::Store => 3,
            Ending::Refused { .. } => 4,
            Ending::Input => 5,
            Ending::Output => 6,
            Ending::Memory | Ending::ScriptMemory => 8,
            Ending::Limit => 9,
        }
    }
}

/// How the program ends where a file isn't read.
pub fn stopped(stop: Stop) -> Ending
    ensures { result ≡ stopped stop }
{
    match stop {
        Stop::Refused { why } => Ending::Refused { why },
        Stop::Failed => Ending::Store,
        Stop::NoMemory => Ending::Memory,
    }
}

/// The store in which an action was done, and how that ended.
#[derive(Drop)]
pub struct Performed<S> {
    pub store: S,
    pub ending: Ending,
}
