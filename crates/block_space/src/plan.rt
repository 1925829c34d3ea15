ghost use Rattle.std.specs.Prelude.{◌≡◌};
ghost use Rattle.block_space.specs.Plans.{needed};

use h5_base::{BlockKind, Bytes, Extent, List, MemClass};
use thiserror::Error;

/// What is taken of a space: so many bytes of each class, in the order of `MemClass`, each block's length rounded up
/// to a multiple of 8; and how many blocks.
#[derive(Clone, Copy, Debug, PartialEq, Eq)]
pub struct Needs {
    pub bytes: [u64; 6],
    pub blocks: u32,
}

impl Needs {
    /// The bytes of a class.
    pub fn of(&self, class: MemClass) -> u64
        ensures { result ≡ needed self.now class }
    {
        match class {
            MemClass::Super => self.bytes[0],
            MemClass::Tree => self.bytes[1],
            MemClass::Raw => self.bytes[2],
            MemClass::GlobalHeap => self.bytes[3],
            MemClass::LocalHeap => self.bytes[4],
            MemClass::Header => self.bytes[5],
        }
    }
}

/// A block that is taken at the end of its class's region.
#[derive(Clone, Copy, Debug, PartialEq, Eq)]
pub struct Take {
    pub class: MemClass,
    /// In bytes; the region's end rises by the next multiple of 8.
    pub len: u64,
    pub kind: BlockKind,
}

/// What an edit does, with the final bytes of each block that it writes. It is a description: nothing is done by it.
#[derive(Debug, Drop)]
pub struct EditPlan {
    /// The sums and the number of the takes.
    pub needs: Needs,
    /// Taken in this order.
    pub takes: List<Take>,
    /// Ranges in blocks of the catalogue that are written, in ascending order of their starts.
    pub writes: List<Extent>,
    /// An image for each write, and then one for each take, an empty one for a block that is filled otherwise.
    pub images: List<Bytes>,
}

/// Why an edit isn't planned.
#[derive(Clone, Copy, Debug, PartialEq, Eq, Error)]
pub enum PlanStop {
    #[error("fault")]
    Failed,
    #[error("out of memory")]
    NoMemory,
    /// A block that is read again spells its kind no longer; never where the space tells its bytes.
    #[error("malformed")]
    Malformed { at: u64, kind: BlockKind },
}

/// Why no room is made.
#[derive(Clone, Copy, Debug, PartialEq, Eq, Error)]
pub enum ReserveStop {
    /// A file has at most 1,048,576 blocks.
    #[error("too many blocks")]
    TooMany,
    /// A region ends at `end`, and hasn't room for `need` bytes more.
    #[error("full")]
    Full { end: u64, need: u64 },
    #[error("out of memory")]
    NoMemory,
}
