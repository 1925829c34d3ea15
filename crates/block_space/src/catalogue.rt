ghost use Rattle.std.specs.Prelude.{◌≡◌, ◌+◌, ◌≤◌, [], List, length, OnOk, vec_len, vec_capacity};
ghost use Rattle.outside.specs.Blocks.{Block};
ghost use Rattle.block_space.specs.Catalogue.{IsListed};

use h5_base::{Extent, NoMemory};
use std::alloc::Global;
use std::collections::BTreeMap;

/// The blocks of a file, by where they begin. Those that were taken since it was last brought in order stand apart, in
/// the order in which they were taken, since taking a block takes no memory.
#[derive(Drop)]
pub struct Catalogue {
    pub(crate) entries: BTreeMap<u64, u64>,
    pub(crate) taken: Vec<Extent>,
}

impl Catalogue {
    /// No block.
    pub(crate) fn new(alloc: Global) -> Catalogue
        ensures empty { IsListed result [] }
    {
        Catalogue {
            entries: BTreeMap::new(alloc),
            taken: Vec::new(alloc),
        }
    }

    /// How many blocks there are.
    pub(crate) fn count(&self) -> usize
        ensures { (met : List Block) → IsListed self.now met → result ≡ length met }
    {
        self.entries.len() + self.taken.len()
    }

    /// Brings all blocks in order, each once. For want of memory some are left apart.
    pub(crate) fn gather(&mut self) -> Result<(), NoMemory>
        ensures lists { (met : List Block) → IsListed self.old met → IsListed self.new met }
        ensures ordered { OnOk result (self.new.taken.items ≡ []) }
    {
        while let Some(last) = self.taken.last() {
            let (start, len) = (last.start, last.len);
            if self.entries.insert(start, len).is_err() {
                return Err(NoMemory);
            }
            let _ = self.taken.pop();
        }
        Ok(())
    }

    /// Makes room for so many more blocks that are taken.
    pub(crate) fn make_room(&mut self, blocks: usize) -> Result<(), NoMemory>
        ensures lists { (met : List Block) → IsListed self.old met → IsListed self.new met }
        ensures room { OnOk result (vec_len self.new.taken + blocks ≤ vec_capacity self.new.taken) }
    {
        match self.taken.reserve(blocks) {
            Ok(()) => Ok(()),
            Err(_) => Err(NoMemory),
        }
    }
}
