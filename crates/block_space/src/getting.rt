ghost use Rattle.std.specs.Prelude.{◌≡◌, ◌+◌, ◌^◌, ◌<◌, ◌≤◌, ◌++◌, ◌∷◌, [], ℕ, List, Option, None, IsTrue, IfOk, IfErr};
ghost use Rattle.std.specs.Prelude.{IfSome, IsSome, OnOk, OnErr, IsErrOf, length};
ghost use Rattle.h5_base.specs.Refusals.{refusal_of};
ghost use Rattle.outside.specs.Array.{bytes_of};
ghost use Rattle.outside.specs.Blocks.{Block, IsBlockRefused, IsPlacedRefused, placed};
ghost use Rattle.outside.specs.Causes.{OneRose};
ghost use Rattle.outside.specs.Space.{bounds_of};
ghost use Rattle.block_space.specs.Blocks.{Keeps, space_of, spare_of};

use crate::Blocks;
use h5_base::{BlockKind, Stop};
use outside::{Failed, Space};
use std::alloc::Global;

impl<V: Space> Blocks<V> {
    /// Takes a block into the catalogue, where it isn't empty: an empty one has no place.
    pub fn adopt_placed(&mut self, start: u64, len: u64, kind: BlockKind) -> Result<(), Stop>
        requires stands { V.Stands (space_of self.old) }
        ensures found { OnOk result ((met : List Block) → Keeps V.view self.old met
            → Keeps V.view self.new (met ++ placed start len)) }
        ensures fits { OnOk result (0 < len → start + len < 2 ^ 64) }
        ensures refused { IfErr result (λ stop. (met : List Block) (own : Option (List ℕ)) → Keeps V.view self.old met
            → IfSome (refusal_of stop)
            (IsPlacedRefused (bounds_of (V.view (space_of self.old)) own) met start len kind)) }
        ensures same { OnErr result ((met : List Block) → Keeps V.view self.old met → Keeps V.view self.new met) }
        ensures no_fault { ¬ IsErrOf result Stop.Failed }
        ensures space { space_of self.new ≡ space_of self.old }
    {
        if len == 0 {
            return Ok(());
        }
        self.adopt(start, len, kind)
    }

    /// Reads so many bytes from an address on, 0 where nothing is.
    pub fn read_bytes(&mut self, alloc: Global, at: u64, len: usize) -> Result<Vec<u8>, Stop>
        requires stands { V.Stands (space_of self.old) }
        requires fits { at + len ≤ 2 ^ 64 }
        ensures bytes { IsTrue V.tells → IfOk result
            (λ v. v.items ≡ bytes_of (V.view (space_of self.old)).array at len) }
        ensures len { IfOk result (λ v. length v.items ≡ len) }
        ensures kept { (met : List Block) → Keeps V.view self.old met → Keeps V.view self.new met }
        ensures spare { spare_of self.new ≡ spare_of self.old }
        ensures refused { IfErr result (λ stop. refusal_of stop ≡ None) }
        ensures alike { V.Alike (space_of self.old) (space_of self.new) }
        ensures failed { IsErrOf result Stop.Failed
            → OneRose (V.faults (space_of self.old)) (V.faults (space_of self.new)) }
        ensures calm { ¬ IsErrOf result Stop.Failed
            → V.faults (space_of self.new) ≡ V.faults (space_of self.old) }
    {
        let mut bytes = vec![in alloc; 0; len]?;
        match self.read(at, &mut bytes) {
            Ok(()) => Ok(bytes),
            Err(Failed) => Err(Stop::Failed),
        }
    }

    /// Takes a block of at least one byte into the catalogue and reads it.
    pub fn adopt_bytes(
        &mut self,
        alloc: Global,
        at: u64,
        len: usize,
        kind: BlockKind,
    ) -> Result<Vec<u8>, Stop>
        requires stands { V.Stands (space_of self.old) }
        requires some { 0 < len }
        ensures bytes { IsTrue V.tells → IfOk result
            (λ v. v.items ≡ bytes_of (V.view (space_of self.old)).array at len) }
        ensures len { IfOk result (λ v. length v.items ≡ len) }
        ensures found { OnOk result ((met : List Block) → Keeps V.view self.old met
            → Keeps V.view self.new (met ++ record { start = at; len = len } ∷ [])) }
        ensures fits { OnOk result (at + len < 2 ^ 64) }
        ensures refused { IfErr result (λ stop. (met : List Block) (own : Option (List ℕ)) → Keeps V.view self.old met
            → IfSome (refusal_of stop) (IsBlockRefused (bounds_of (V.view (space_of self.old)) own) met
            (record { start = at; len = len }) kind)) }
        ensures same { IfErr result (λ stop. IsSome (refusal_of stop) → (met : List Block) → Keeps V.view self.old met
            → Keeps V.view self.new met) }
        ensures alike { V.Alike (space_of self.old) (space_of self.new) }
        ensures failed { IsErrOf result Stop.Failed
            → OneRose (V.faults (space_of self.old)) (V.faults (space_of self.new)) }
        ensures calm { ¬ IsErrOf result Stop.Failed
            → V.faults (space_of self.new) ≡ V.faults (space_of self.old) }
    {
        match self.adopt(at, len as u64, kind) {
            Ok(()) => self.read_bytes(alloc, at, len),
            Err(stop) => Err(stop),
        }
    }
}
