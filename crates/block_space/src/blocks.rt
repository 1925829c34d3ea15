ghost use Rattle.std.specs.Prelude.{◌≡◌, ◌+◌, ◌^◌, ◌<◌, ◌≤◌, ◌++◌, ℕ, [], ◌∷◌, List, Option, length, IsTrue, IfErr};
ghost use Rattle.std.specs.Prelude.{◌↔◌, IfOk, IfSome, OnOk, OnErr, IsErrOf};
ghost use Rattle.std.specs.List.{Contains};
ghost use Rattle.h5_base.specs.Refusals.{refusal_of};
ghost use Rattle.outside.specs.Array.{bytes_of};
ghost use Rattle.outside.specs.Blocks.{Block, IsBlockRefused, IsInside};
ghost use Rattle.outside.specs.Causes.{OneRose};
ghost use Rattle.outside.specs.Space.{bounds_of};
ghost use Rattle.block_space.specs.Blocks.{IsSetAside, Keeps, MayJoin, space_of, spare_of};

use crate::catalogue::Catalogue;
use crate::neighbours::shared_address;
use crate::regions::lies_inside;
use h5_base::{BlockKind, NoMemory, Refusal, Stop};
use outside::{Failed, Space};
use std::alloc::Global;
use std::mem;

/// So many blocks a file has at most.
pub(crate) const MOST_BLOCKS: usize = 1_048_576;

/// A space with a catalogue of the blocks that were met in it.
#[derive(Drop)]
pub struct Blocks<V: Space> {
    pub(crate) space: V,
    pub(crate) catalogue: Catalogue,
}

impl<V: Space> Blocks<V> {
    /// No block is in the catalogue yet.
    pub fn new(alloc: Global, space: V) -> Blocks<V>
        ensures space { space_of result ≡ space }
        ensures empty { Keeps V.view result [] }
    {
        Blocks {
            space,
            catalogue: Catalogue::new(alloc),
        }
    }

    // The first reason for which a block of at least one byte isn't taken in, want of memory aside. The catalogue is in
    // order.
    fn judge(&self, start: u64, len: u64, kind: BlockKind) -> Result<(), Stop>
        requires some { 0 < len }
        requires ordered { self.now.catalogue.taken.items ≡ [] }
        ensures free { OnOk result ((met : List Block) → Keeps V.view self.now met
            → MayJoin V.view self.now met (record { start = start; len = len })) }
        ensures inside { OnOk result ((own : Option (List ℕ))
            → IsInside (bounds_of (V.view (space_of self.now)) own) (record { start = start; len = len })) }
        ensures refused { IfErr result (λ stop. (met : List Block) (own : Option (List ℕ)) → Keeps V.view self.now met
            → IfSome (refusal_of stop) (IsBlockRefused (bounds_of (V.view (space_of self.now)) own) met
            (record { start = start; len = len }) kind)) }
        ensures no_fault { ¬ IsErrOf result Stop.Failed }
        ensures memory { ¬ IsErrOf result Stop.NoMemory }
    {
        if self.catalogue.entries.contains_key(&start) {
            return Err(Stop::Refused {
                why: Refusal::LinkedTwice { at: start },
            });
        }
        if let Some(at) = shared_address(&self.catalogue.entries, start, len) {
            return Err(Stop::Refused {
                why: Refusal::Overlap { at },
            });
        }
        if !lies_inside(&self.space, start, len) {
            return Err(Stop::malformed(start, kind));
        }
        if self.catalogue.entries.len() >= MOST_BLOCKS {
            return Err(Stop::Refused {
                why: Refusal::TooMany,
            });
        }
        Ok(())
    }

    /// Takes a block of at least one byte into the catalogue. After an error the catalogue is as it was. The error is
    /// the first that applies: a block that begins there is in the catalogue (`LinkedTwice`), one shares an address
    /// with it (`Overlap`), it passes its region's end (`Malformed` as its kind), the catalogue has as many blocks as a
    /// file may have (`TooMany`), or want of memory.
    pub fn adopt(&mut self, start: u64, len: u64, kind: BlockKind) -> Result<(), Stop>
        requires stands { V.Stands (space_of self.old) }
        requires some { 0 < len }
        ensures found { OnOk result ((met : List Block) → Keeps V.view self.old met
            → Keeps V.view self.new (met ++ record { start = start; len = len } ∷ [])) }
        ensures fits { OnOk result (start + len < 2 ^ 64) }
        ensures same { OnErr result ((met : List Block) → Keeps V.view self.old met → Keeps V.view self.new met) }
        ensures refused { IfErr result (λ stop. (met : List Block) (own : Option (List ℕ)) → Keeps V.view self.old met
            → IfSome (refusal_of stop) (IsBlockRefused (bounds_of (V.view (space_of self.old)) own) met
            (record { start = start; len = len }) kind)) }
        ensures no_fault { ¬ IsErrOf result Stop.Failed }
        ensures space { space_of self.new ≡ space_of self.old }
    {
        if self.catalogue.gather().is_err() {
            return Err(Stop::NoMemory);
        }
        self.judge(start, len, kind)?;
        match self.catalogue.entries.insert(start, len) {
            Ok(_) => Ok(()),
            Err(_) => Err(Stop::NoMemory),
        }
    }

    /// Whether a block of this length that begins there is in the catalogue, which is brought in order first.
    pub fn holds(&mut self, start: u64, len: u64) -> Result<bool, NoMemory>
        ensures has { IfOk result (λ has. (met : List Block) → Keeps V.view self.old met
            → IsTrue has ↔ Contains met (record { start = start; len = len })) }
        ensures kept { (met : List Block) → Keeps V.view self.old met → Keeps V.view self.new met }
        ensures space { space_of self.new ≡ space_of self.old }
    {
        self.catalogue.gather()?;
        Ok(match self.catalogue.entries.get(&start) {
            Some(kept) => *kept == len,
            None => false,
        })
    }

    /// Gives the bytes from `at` on, 0 where nothing is.
    pub fn read(&mut self, at: u64, out: &mut [u8]) -> Result<(), Failed>
        requires stands { V.Stands (space_of self.old) }
        requires fits { at + length out.old ≤ 2 ^ 64 }
        ensures bytes { IsTrue V.tells → OnOk result
            (out.new ≡ bytes_of (V.view (space_of self.old)).array at (length out.old)) }
        ensures kept { (met : List Block) → Keeps V.view self.old met → Keeps V.view self.new met }
        ensures spare { spare_of self.new ≡ spare_of self.old }
        ensures alike { V.Alike (space_of self.old) (space_of self.new) }
        ensures failed { OnErr result (OneRose (V.faults (space_of self.old)) (V.faults (space_of self.new))) }
        ensures calm { OnOk result (V.faults (space_of self.new) ≡ V.faults (space_of self.old)) }
    {
        self.space.read(at, out)
    }

    /// Sets the catalogue aside: from now on one without blocks is kept. So what was met before is read again as what
    /// is met for the first time.
    pub fn set_aside(&mut self, alloc: Global) -> Catalogue
        ensures empty { Keeps V.view self.new [] }
        ensures kept { (met : List Block) → Keeps V.view self.old met
            → IsSetAside (V.view (space_of self.old)) result met }
        ensures space { space_of self.new ≡ space_of self.old }
    {
        mem::replace(&mut self.catalogue, Catalogue::new(alloc))
    }

    /// Keeps a catalogue again that was set aside, in place of the one that was kept meanwhile.
    pub fn put_back(&mut self, kept: Catalogue)
        ensures kept { (met : List Block) → IsSetAside (V.view (space_of self.old)) kept met
            → Keeps V.view self.new met }
        ensures space { space_of self.new ≡ space_of self.old }
    {
        self.catalogue = kept;
    }

    /// The space.
    pub fn space(&self) -> &V
        ensures { result.now ≡ space_of self.now }
    {
        &self.space
    }

    /// Gives the space back.
    pub fn finish(self) -> V
        ensures { result ≡ space_of self }
    {
        let Blocks {
            space,
            catalogue: _,
        } = self;
        space
    }
}
