ghost use Rattle.std.specs.Prelude.{◌≡◌, ◌+◌, ◌-◌, ◌<◌, ◌≤◌, ◌++◌, ◌∷◌, [], List, length, IsTrue, IfOk, OnOk, OnErr};
ghost use Rattle.std.specs.Prelude.{IsErrOf};
ghost use Rattle.outside.specs.Array.{over, SameOutside};
ghost use Rattle.outside.specs.Blocks.{Block, most_blocks};
ghost use Rattle.outside.specs.Space.{IsReady, IsWritten, IsRaised, RaisedInPart, HasCauses, CommitCauses, IsCommitted};
ghost use Rattle.outside.specs.Space.{SameKind, LeaveOnly, MayBeMade, Continue, new_bytes, raised};
ghost use Rattle.block_space.specs.Blocks.{HasRoomNow, Keeps, spare_of, space_of};
ghost use Rattle.block_space.specs.Plans.{LiesInOne, rounded};

use crate::blocks::Blocks;
use h5_base::{BlockKind, Comment, Extent, MemClass};
use outside::{CommitAnswer, CommitStop, Space, WriteStop};

impl<V: Space> Blocks<V> {
    /// Takes a block at the end of its class's region, which rises by the length rounded up to a multiple of 8, and
    /// says where it is. Its bytes are 0. It takes no memory.
    pub fn take(&mut self, class: MemClass, len: u64, _: BlockKind) -> Result<u64, WriteStop>
        requires stands { V.Stands (space_of self.old) }
        requires some { 0 < len }
        requires below { (V.view (space_of self.old)).ends class + rounded len
            ≤ ((V.view (space_of self.old)).regions class).limit }
        requires ready { IsReady (V.view (space_of self.old)) ((V.view (space_of self.old)).ends class) (rounded len) }
        requires spare { 0 < spare_of self.old }
        ensures at { IfOk result (λ at. at ≡ (V.view (space_of self.old)).ends class) }
        ensures found { OnOk result ((met : List Block) → Keeps V.view self.old met → length met < most_blocks
            → Keeps V.view self.new
            (met ++ record { start = (V.view (space_of self.old)).ends class; len = len } ∷ [])) }
        ensures kept_still { OnErr result ((met : List Block) → Keeps V.view self.old met
            → Keeps V.view self.new met) }
        ensures done { OnOk result (IsRaised V.tells class ((V.view (space_of self.old)).ends class + rounded len)
            (V.view (space_of self.old)) (V.view (space_of self.new))) }
        ensures in_part { IsTrue V.tells → OnErr result (SameOutside ((V.view (space_of self.old)).ends class)
            (rounded len) (V.view (space_of self.old)).array (V.view (space_of self.new)).array) }
        ensures raised_main { IsTrue V.tells → IsErrOf result WriteStop.WoFailed → (V.view (space_of self.new)).array
            ≡ over (V.view (space_of self.old)).array ((V.view (space_of self.old)).ends class)
            (new_bytes (V.view (space_of self.old)).ends class
            ((V.view (space_of self.old)).ends class + rounded len)) }
        ensures ends_main { IsErrOf result WriteStop.WoFailed → (V.view (space_of self.new)).ends
            ≡ raised (V.view (space_of self.old)).regions (V.view (space_of self.old)).ends class
            ((V.view (space_of self.old)).ends class + rounded len) }
        ensures ends_in_part { RaisedInPart (V.view (space_of self.old)).regions (V.view (space_of self.old)).ends class
            ((V.view (space_of self.old)).ends class + rounded len) (V.view (space_of self.new)).ends }
        ensures spare { OnOk result (spare_of self.old ≤ spare_of self.new + 1) }
        ensures spare_still { OnErr result (spare_of self.new ≡ spare_of self.old) }
        ensures room { OnOk result (HasRoomNow V.view self.new) }
        ensures stands { OnOk result (V.Stands (space_of self.new)) }
        ensures cause { HasCauses (V.faults (space_of self.old)) (V.faults (space_of self.new))
            (V.copy_faults (space_of self.old)) (V.copy_faults (space_of self.new)) result }
        ensures steady { IsTrue V.tells_stops → V.Steady (space_of self.old)
            → OnOk result (V.Steady (space_of self.new)) }
        ensures edited { V.Edited (space_of self.old) (space_of self.new) }
    {
        let at = self.space.end(class);
        let whole = (len + 7) / 8 * 8;
        self.space.raise(class, at + whole)?;
        let _ = self.catalogue.taken.push(Extent { start: at, len });
        Ok(at)
    }

    /// Writes bytes within one block of the catalogue. It takes no memory.
    pub fn patch(&mut self, at: u64, bytes: &[u8]) -> Result<(), WriteStop>
        requires stands { V.Stands (space_of self.old) }
        requires block { (met : List Block) × Keeps V.view self.old met
            × LiesInOne met at (length bytes.now) }
        requires ready { IsReady (V.view (space_of self.old)) at (length bytes.now) }
        ensures kept { (met : List Block) → Keeps V.view self.old met → Keeps V.view self.new met }
        ensures done { OnOk result (IsWritten V.tells at bytes.now (V.view (space_of self.old))
            (V.view (space_of self.new))) }
        ensures wrote_main { IsTrue V.tells → IsErrOf result WriteStop.WoFailed
            → (V.view (space_of self.new)).array ≡ over (V.view (space_of self.old)).array at bytes.now }
        ensures in_part { IsTrue V.tells → IsErrOf result WriteStop.Failed → SameOutside at (length bytes.now)
            (V.view (space_of self.old)).array (V.view (space_of self.new)).array }
        ensures ends { (V.view (space_of self.new)).ends ≡ (V.view (space_of self.old)).ends }
        ensures spare { spare_of self.new ≡ spare_of self.old }
        ensures room { OnOk result (HasRoomNow V.view self.new) }
        ensures stands { OnOk result (V.Stands (space_of self.new)) }
        ensures cause { HasCauses (V.faults (space_of self.old)) (V.faults (space_of self.new))
            (V.copy_faults (space_of self.old)) (V.copy_faults (space_of self.new)) result }
        ensures steady { IsTrue V.tells_stops → V.Steady (space_of self.old)
            → OnOk result (V.Steady (space_of self.new)) }
        ensures edited { V.Edited (space_of self.old) (space_of self.new) }
    {
        self.space.write(at, bytes)
    }

    /// Makes all files of the space last as they read.
    pub fn settle(&mut self) -> Result<(), WriteStop>
        requires stands { V.Stands (space_of self.old) }
        requires writable { IsTrue (V.view (space_of self.old)).writable }
        ensures same { OnOk result (V.view (space_of self.new) ≡ V.view (space_of self.old)) }
        ensures array { IsTrue V.tells → (V.view (space_of self.new)).array ≡ (V.view (space_of self.old)).array }
        ensures ends { (V.view (space_of self.new)).ends ≡ (V.view (space_of self.old)).ends }
        ensures kept { (met : List Block) → Keeps V.view self.old met → Keeps V.view self.new met }
        ensures spare { spare_of self.new ≡ spare_of self.old }
        ensures stands { OnOk result (V.Stands (space_of self.new)) }
        ensures rests { OnOk result (V.Rests (space_of self.new)) }
        ensures rests_still { V.Rests (space_of self.old) → V.Rests (space_of self.new) }
        ensures cause { HasCauses (V.faults (space_of self.old)) (V.faults (space_of self.new))
            (V.copy_faults (space_of self.old)) (V.copy_faults (space_of self.new)) result }
        ensures steady { IsTrue V.tells_stops → V.Steady (space_of self.old)
            → OnOk result (V.Steady (space_of self.new)) }
        ensures edited { V.Edited (space_of self.old) (space_of self.new) }
    {
        self.space.settle()
    }

    /// Makes a revision of the bytes as they are. After `Done` no range is given, and nothing is reserved.
    pub fn commit(&mut self, comment: &Comment, secs: i64) -> Result<CommitAnswer, CommitStop>
        requires stands { V.Stands (space_of self.old) }
        requires writable { IsTrue (V.view (space_of self.old)).writable }
        ensures answer { IfOk result (λ a. IsCommitted V.tells comment.now secs (V.view (space_of self.old))
            (V.view (space_of self.new)) a) }
        ensures no_memory { IsErrOf result CommitStop.NoMemory
            → V.view (space_of self.new) ≡ V.view (space_of self.old) }
        ensures kept { OnOk result ((met : List Block) → Keeps V.view self.old met → Keeps V.view self.new met) }
        ensures kept_still { IsErrOf result CommitStop.NoMemory → (met : List Block) → Keeps V.view self.old met
            → Keeps V.view self.new met }
        ensures spare { spare_of self.new ≡ spare_of self.old }
        ensures kind { SameKind (V.view (space_of self.old)) (V.view (space_of self.new)) }
        ensures stands { OnOk result (V.Stands (space_of self.new)) }
        ensures stands_still { IsErrOf result CommitStop.NoMemory → V.Stands (space_of self.new) }
        ensures cause { CommitCauses (V.faults (space_of self.old)) (V.faults (space_of self.new))
            (V.copy_faults (space_of self.old)) (V.copy_faults (space_of self.new)) result }
        ensures steady { IsTrue V.tells_stops → V.Steady (space_of self.old)
            → OnOk result (V.Steady (space_of self.new)) }
        ensures steady_still { IsTrue V.tells_stops → V.Steady (space_of self.old)
            → IsErrOf result CommitStop.NoMemory → V.Steady (space_of self.new) }
        ensures leaves { IsTrue V.tells_stops → V.Steady (space_of self.old) → LeaveOnly (V.moment (space_of self.old))
            (λ list. MayBeMade comment.now secs (V.view (space_of self.old)) list) (V.Leaves (space_of self.new)) }
        ensures past { IsTrue V.tells_stops → Continue (V.moment (space_of self.old)) (V.Leaves (space_of self.old))
            (V.Leaves (space_of self.new)) }
        ensures goes { V.GoesOn (space_of self.old) (space_of self.new) }
    {
        self.space.commit(comment, secs)
    }
}
