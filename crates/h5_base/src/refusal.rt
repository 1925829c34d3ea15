ghost use Rattle.std.specs.Prelude.{◌≡◌, IfOk, string_bytes};
ghost use Rattle.h5_base.specs.Refusals.{kind_word, what_word, line_of};
ghost use Rattle.h5_base.specs.declared.refusal.Stop.TheVariants.{NoMemory};

use crate::kinds::{BlockKind, What};
use std::alloc::{AllocError, AllocFailed, Global};
use thiserror::Error;

/// Why a file is refused. Addresses and lengths are in bytes.
#[derive(Clone, Copy, Debug, PartialEq, Eq)]
pub enum Refusal {
    /// The file to be created isn't empty.
    Exists,
    /// The file to be opened is empty.
    Absent,
    /// The bytes at an address don't spell a block of this kind, or the block leaves its region's end.
    Malformed { at: u64, kind: BlockKind },
    /// The file asks for something that isn't supported.
    Unsupported { what: What },
    /// The superblock stores a greater end than the actual one.
    Truncated { actual: u64, stored: u64 },
    /// A block that begins at an address was reached before.
    LinkedTwice { at: u64 },
    /// An address lies in two blocks.
    Overlap { at: u64 },
    /// An object lies more than 32 links below the root.
    TooDeep,
    /// More than 65,536 objects or 1,048,576 blocks.
    TooMany,
}

/// Why a file isn't read: it is refused, a call on it failed, or there is no memory.
#[derive(Clone, Copy, Debug, PartialEq, Eq, Error)]
pub enum Stop {
    #[error("refused")]
    Refused { why: Refusal },
    #[error("fault")]
    Failed,
    #[error("out of memory")]
    NoMemory,
}

impl Stop {
    /// The bytes at an address don't spell a block of this kind, or the block leaves its region's end.
    pub fn malformed(at: u64, kind: BlockKind) -> Stop
        ensures { result ≡ Stop.Refused (Refusal.Malformed at kind) }
    {
        Stop::Refused {
            why: Refusal::Malformed { at, kind },
        }
    }

    /// The file asks for something that isn't supported.
    pub fn unsupported(what: What) -> Stop
        ensures { result ≡ Stop.Refused (Refusal.Unsupported what) }
    {
        Stop::Refused {
            why: Refusal::Unsupported { what },
        }
    }
}

impl From<AllocError> for Stop {
    ghost from_gives = { λ _ e. e ≡ NoMemory };

    fn from(_e: AllocError) -> Stop {
        Stop::NoMemory
    }
}

impl<T: Drop> From<AllocFailed<T>> for Stop {
    ghost from_gives = { λ _ e. e ≡ NoMemory };

    fn from(_e: AllocFailed<T>) -> Stop {
        Stop::NoMemory
    }
}

impl From<crate::NoMemory> for Stop {
    ghost from_gives = { λ _ e. e ≡ NoMemory };

    fn from(_e: crate::NoMemory) -> Stop {
        Stop::NoMemory
    }
}

fn kind_word(kind: BlockKind) -> &'static str
    ensures { result.now ≡ kind_word kind }
{
    match kind {
        BlockKind::Super => "super",
        BlockKind::Driver => "driver",
        BlockKind::Header => "header",
        BlockKind::Message => "message",
        BlockKind::Tree => "tree",
        BlockKind::Snod => "snod",
        BlockKind::Heap => "heap",
        BlockKind::Raw => "raw",
    }
}

fn what_word(what: What) -> &'static str
    ensures { result.now ≡ what_word what }
{
    match what {
        What::UserBlock => "user-block",
        What::Sizes => "sizes",
        What::Superblock => "superblock",
        What::K => "k",
        What::Driver => "driver",
        What::Root => "root",
        What::Header => "header",
        What::Heap => "heap",
    }
}

impl Refusal {
    /// The line that tells it, with its line feed.
    #[tactic(auto, unfolding(crate::specs::Refusals::line_of))]
    pub fn line(self, alloc: Global) -> Result<String, AllocError>
        ensures { IfOk result (λ text. string_bytes text ≡ line_of self) }
    {
        match self {
            Refusal::Exists => String::from_str(alloc, "refused: exists\n"),
            Refusal::Absent => String::from_str(alloc, "refused: absent\n"),
            Refusal::Malformed { at, kind } => {
                let kind = kind_word(kind);
                format!(in alloc; "refused: malformed {at} {kind}\n")
            }
            Refusal::Unsupported { what } => {
                let what = what_word(what);
                format!(in alloc; "refused: unsupported {what}\n")
            }
            Refusal::Truncated { actual, stored } => {
                format!(in alloc; "refused: truncated {actual} {stored}\n")
            }
            Refusal::LinkedTwice { at } => format!(in alloc; "refused: linked-twice {at}\n"),
            Refusal::Overlap { at } => format!(in alloc; "refused: overlap {at}\n"),
            Refusal::TooDeep => String::from_str(alloc, "refused: too-deep\n"),
            Refusal::TooMany => String::from_str(alloc, "refused: too-many\n"),
        }
    }
}
