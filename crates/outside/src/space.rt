ghost use Rattle.std.specs.Prelude.{◌≡◌, ◌+◌, ◌-◌, ◌^◌, ◌≤◌, ◌↔◌, ℕ, ℤ, Bool, false, List, Some, None, length};
ghost use Rattle.std.specs.Prelude.{IsTrue, IsErrOf, IfOk, OnOk, OnErr, Result};
ghost use Rattle.outside.specs.Array.{bytes_of, over, SameOutside};
ghost use Rattle.outside.specs.Causes.{Counts, NoneFell, OneRose};
ghost use Rattle.outside.specs.Revisions.{Stored};
ghost use Rattle.outside.specs.Space.{SpaceView, LiesIn, IsReady, HasRoom, Ascend, SameKind, IsWritten, IsRaised};
ghost use Rattle.outside.specs.Space.{HasCauses, IsRefusal, IsCommitted, CommitCauses, Continue, LeaveOnly, LeavesSame};
ghost use Rattle.outside.specs.Space.{StaysGiven, MayBeMade, IsSound, RaisedInPart, raised, new_bytes};

use crate::{Failed, Kept};
use h5_base::{Comment, Extent, MemClass, NoMemory, Region};
use thiserror::Error;

/// Why bytes weren't written.
#[derive(Clone, Copy, Debug, PartialEq, Eq, Error)]
pub enum WriteStop {
    #[error("fault")]
    Failed,
    /// A fault of the copy that a strict splitter writes; the main channel's call is done.
    #[error("fault of the write-only file")]
    WoFailed,
}

/// What came of a commit.
#[derive(Clone, Copy, Debug, PartialEq, Eq)]
pub enum CommitAnswer {
    /// The revision made, and how many pages were written since the one before.
    Done { rev: u32, pages: u64 },
    /// The stack has no revisions.
    NoOnion,
    /// 65,535 revisions are there, or the file with them would pass 2^48 bytes.
    Limit,
    /// The moment is outside the years 1970 to 9999.
    Clock,
}

/// Why a commit has no answer.
#[derive(Clone, Copy, Debug, PartialEq, Eq, Error)]
pub enum CommitStop {
    #[error("out of memory")]
    NoMemory,
    #[error("fault")]
    Failed,
    #[error("fault of the write-only file")]
    WoFailed,
}

/// A sparse array of bytes with an end for each region, which lies between the region's start and its limit. It keeps
/// them in files of its own, and may have revisions. The regions of two classes are equal or apart.
///
/// The calls that write need room: they write within the ranges that `prepare` was last given, and take no memory.
/// After `Failed` or `WoFailed` of a call that writes it may no longer stand, and then no further call may be made.
/// What such calls leave besides what each says of itself are laws of what they left, likewise.
///
/// Who only reads leaves an alike space, also after a fault; the laws say what that is: it tells the same, stands,
/// rests and is steady as before, and its counts of faults went on from there. So code that reads carries that one
/// fact, and one cause: a fault is answered only where a count rose, and where none is answered none did.
pub trait Space: Kept {
    /// It tells its bytes.
    ghost tells: { Bool };

    /// It tells which revisions a stop leaves.
    ghost tells_stops: { Bool };

    /// Its bytes, ends and regions, the ranges given to `prepare`, and its revisions.
    ghost view: { Self → SpaceView };

    /// It stands: its calls may be made.
    ghost Stands: { Self → Type 0 };

    /// The faults of each of the files whose faults it answers as its own. Those of a splitter's copy aren't among
    /// them.
    ghost faults: { Self → Counts };

    /// The faults of each file of a strict splitter's copy.
    ghost copy_faults: { Self → Counts };

    /// Its files last as they read: a stop leaves just these bytes.
    ghost Rests: { Self → Type 0 };

    /// The number of calls on the outside so far.
    ghost moment: { Self → ℕ };

    /// The second came from the first by calls, whatever they answered: it keeps its bytes in the same files, and
    /// nothing else of the outside has changed.
    ghost GoesOn: { Self → Self → Type 0 };

    /// The second is what `prepare` left of the first: the ranges given may differ, and nothing else.
    ghost Readied: { Self → Self → Type 0 };

    /// The second is what calls of `prepare`, `write`, `raise` and `settle` left of the first, all of them done but at
    /// most the last.
    ghost Edited: { Self → Self → Type 0 };

    /// Every image that a stop now may leave has just the committed revisions.
    ghost Steady: { Self → Type 0 };

    /// The lists of revisions that the snapshots of a moment leave, without those that agree by chance alone.
    ghost Leaves: { Self → ℕ → List Stored → Type 0 };

    /// Gives the bytes from `at` on, 0 where nothing is.
    fn read(&mut self, at: u64, out: &mut [u8]) -> Result<(), Failed>
        requires stands { Stands self.old }
        requires fits { at + length out.old ≤ 2 ^ 64 }
        ensures bytes { IsTrue tells → OnOk result (out.new ≡ bytes_of (view self.old).array at (length out.old)) }
        ensures alike { Self.Alike self.old self.new }
        ensures failed { OnErr result (OneRose (faults self.old) (faults self.new)) }
        ensures calm { OnOk result (faults self.new ≡ faults self.old) };

    /// Writes the bytes from `at` on, a range within one region below its end. After `Failed` the bytes in the range
    /// may be any; after `WoFailed` they are written.
    fn write(&mut self, at: u64, bytes: &[u8]) -> Result<(), WriteStop>
        requires stands { Stands self.old }
        requires inside { (class : MemClass) × LiesIn (view self.old).regions (view self.old).ends class at
            (length bytes.now) }
        requires ready { IsReady (view self.old) at (length bytes.now) }
        ensures done { OnOk result (IsWritten tells at bytes.now (view self.old) (view self.new)) }
        ensures wrote_main { IsTrue tells → IsErrOf result WriteStop.WoFailed
            → (view self.new).array ≡ over (view self.old).array at bytes.now }
        ensures in_part { IsTrue tells → IsErrOf result WriteStop.Failed
            → SameOutside at (length bytes.now) (view self.old).array (view self.new).array }
        ensures ends { (view self.new).ends ≡ (view self.old).ends }
        ensures stands { OnOk result (Stands self.new) }
        ensures cause { HasCauses (faults self.old) (faults self.new) (copy_faults self.old) (copy_faults self.new)
            result }
        ensures steady { IsTrue tells_stops → Steady self.old → OnOk result (Steady self.new) }
        ensures edited { Edited self.old self.new };

    /// Moves the end of a region up to `end`, which is at most its limit. The new bytes read as 0.
    fn raise(&mut self, class: MemClass, end: u64) -> Result<(), WriteStop>
        requires stands { Stands self.old }
        requires up { (view self.old).ends class ≤ end }
        requires below { end ≤ ((view self.old).regions class).limit }
        requires ready { IsReady (view self.old) ((view self.old).ends class) (end - (view self.old).ends class) }
        ensures done { OnOk result (IsRaised tells class end (view self.old) (view self.new)) }
        ensures raised_main { IsTrue tells → IsErrOf result WriteStop.WoFailed → (view self.new).array
            ≡ over (view self.old).array ((view self.old).ends class) (new_bytes (view self.old).ends class end) }
        ensures ends_main { IsErrOf result WriteStop.WoFailed
            → (view self.new).ends ≡ raised (view self.old).regions (view self.old).ends class end }
        ensures in_part { IsTrue tells → OnErr result (SameOutside ((view self.old).ends class)
            (end - (view self.old).ends class) (view self.old).array (view self.new).array) }
        ensures ends_in_part { RaisedInPart (view self.old).regions (view self.old).ends class end
            (view self.new).ends }
        ensures stands { OnOk result (Stands self.new) }
        ensures cause { HasCauses (faults self.old) (faults self.new) (copy_faults self.old) (copy_faults self.new)
            result }
        ensures steady { IsTrue tells_stops → Steady self.old → OnOk result (Steady self.new) }
        ensures edited { Edited self.old self.new };

    /// Makes room for writes and raises in these ranges, in ascending order of their starts, and for no others.
    fn prepare(&mut self, ranges: &Vec<Extent>) -> Result<(), NoMemory>
        requires stands { Stands self.old }
        requires ascend { Ascend ranges.now.items }
        ensures prepared { OnOk result ((view self.new).prepared ≡ ranges.now.items) }
        ensures given { OnErr result (StaysGiven ranges.now.items (view self.old) (view self.new)) }
        ensures readied { Readied self.old self.new };

    /// Makes all files last as they read. What they read stays, also after a fault.
    fn settle(&mut self) -> Result<(), WriteStop>
        requires stands { Stands self.old }
        requires writable { IsTrue (view self.old).writable }
        ensures same { OnOk result (view self.new ≡ view self.old) }
        ensures array { IsTrue tells → (view self.new).array ≡ (view self.old).array }
        ensures ends { (view self.new).ends ≡ (view self.old).ends }
        ensures stands { OnOk result (Stands self.new) }
        ensures rests { OnOk result (Rests self.new) }
        ensures rests_still { Rests self.old → Rests self.new }
        ensures cause { HasCauses (faults self.old) (faults self.new) (copy_faults self.old) (copy_faults self.new)
            result }
        ensures steady { IsTrue tells_stops → Steady self.old → OnOk result (Steady self.new) }
        ensures edited { Edited self.old self.new };

    fn region(&self, class: MemClass) -> Region
        ensures { result ≡ (view self.now).regions class };

    fn end(&self, class: MemClass) -> u64
        ensures { result ≡ (view self.now).ends class };

    /// False exactly where the space was opened at a revision.
    fn writable(&self) -> bool
        ensures { result ≡ (view self.now).writable };

    /// Whether the stack has revisions.
    fn has_onion(&self) -> bool
        ensures { (result ≡ false) ↔ ((view self.now).committed ≡ None) };

    /// Whether the file with the revisions stays within 2^48 bytes when the ranges are written, which ascend by their
    /// starts; true without revisions.
    fn room_left(&self, ranges: &Vec<Extent>) -> bool
        requires { Ascend ranges.now.items }
        ensures { IsTrue result ↔ HasRoom (view self.now).committed ranges.now.items };

    /// The answer other than `Done` that a commit after writes in the ranges, which ascend by their starts, would give.
    fn commit_refusal(
        &self,
        ranges: &Vec<Extent>,
        comment: &Comment,
        secs: i64,
    ) -> Option<CommitAnswer>
        requires { Ascend ranges.now.items }
        ensures { IsRefusal (view self.now).committed ranges.now.items comment.now secs result };

    /// Makes a revision of the bytes as they are, with this comment, at a moment in seconds since 1970.
    fn commit(&mut self, comment: &Comment, secs: i64) -> Result<CommitAnswer, CommitStop>
        requires stands { Stands self.old }
        requires writable { IsTrue (view self.old).writable }
        ensures answer { IfOk result (λ a. IsCommitted tells comment.now secs (view self.old) (view self.new) a) }
        ensures no_memory { IsErrOf result CommitStop.NoMemory → view self.new ≡ view self.old }
        ensures kind { SameKind (view self.old) (view self.new) }
        ensures stands { OnOk result (Stands self.new) }
        ensures stands_still { IsErrOf result CommitStop.NoMemory → Stands self.new }
        ensures cause { CommitCauses (faults self.old) (faults self.new) (copy_faults self.old) (copy_faults self.new)
            result }
        ensures steady { IsTrue tells_stops → Steady self.old → OnOk result (Steady self.new) }
        ensures steady_still { IsTrue tells_stops → Steady self.old → IsErrOf result CommitStop.NoMemory
            → Steady self.new }
        ensures leaves { IsTrue tells_stops → Steady self.old → LeaveOnly (moment self.old)
            (λ list. MayBeMade comment.now secs (view self.old) list) (Leaves self.new) }
        ensures past { IsTrue tells_stops → Continue (moment self.old) (Leaves self.old) (Leaves self.new) }
        ensures goes { GoesOn self.old self.new };

    /// Alike spaces tell the same.
    ghost alike: { (a b : Self) → Self.Alike a b → view a ≡ view b };

    /// What a read leaves goes on from before, and a run of calls goes on as each of them does.
    ghost goes_alike: { (a b : Self) → Self.Alike a b → GoesOn a b };

    ghost goes_further: { (a b c : Self) → GoesOn a b → GoesOn b c → GoesOn a c };

    /// What goes on has no count of faults that fell, and time goes forward.
    ghost goes_counts: { (a b : Self) → GoesOn a b → NoneFell (faults a) (faults b) };

    ghost goes_copy: { (a b : Self) → GoesOn a b → NoneFell (copy_faults a) (copy_faults b) };

    ghost goes_moment: { (a b : Self) → GoesOn a b → moment a ≤ moment b };

    /// A read touches no file of a strict splitter's copy.
    ghost alike_copy: { (a b : Self) → Self.Alike a b → copy_faults b ≡ copy_faults a };

    /// What a read leaves stands, rests and is steady as before.
    ghost alike_stands: { (a b : Self) → Self.Alike a b → Stands a → Stands b };

    ghost alike_rests: { (a b : Self) → Self.Alike a b → Rests a → Rests b };

    ghost alike_steady: { IsTrue tells_stops → (a b : Self) → Self.Alike a b → Steady a → Steady b };

    /// The snapshots since a read began leave just the committed revisions; so, as a space is alike to itself, do
    /// those of a steady one.
    ghost alike_stops: { IsTrue tells_stops → (a b : Self) → Self.Alike a b → Steady a
        → LeavesSame (moment a) (view a).history.revisions (Leaves a) (Leaves b) };

    /// What `prepare` leaves tells the same but for the ranges given, stands, rests and is steady as before. Its
    /// counts and its moment are as before too, and its snapshots leave no other lists.
    ghost readied_view: { (a b : Self) → Self.Readied a b
        → view b ≡ record (view a) { prepared = (view b).prepared } };

    ghost readied_stands: { (a b : Self) → Self.Readied a b → Stands a → Stands b };

    ghost readied_counts: { (a b : Self) → Self.Readied a b → faults b ≡ faults a };

    ghost readied_copy: { (a b : Self) → Self.Readied a b → copy_faults b ≡ copy_faults a };

    ghost readied_rests: { (a b : Self) → Self.Readied a b → Rests a → Rests b };

    ghost readied_moment: { (a b : Self) → Self.Readied a b → moment b ≡ moment a };

    ghost readied_steady: { IsTrue tells_stops → (a b : Self) → Self.Readied a b → Steady a → Steady b };

    ghost readied_past: { IsTrue tells_stops → (a b : Self) → Self.Readied a b → (m : ℕ) (list : List Stored)
        → Leaves b m list → Leaves a m list };

    /// A space is what no call left of it.
    ghost readied_itself: { (a : Self) → Self.Readied a a };

    /// What calls that write left has the same regions and goes on from before, and its snapshots leave just the
    /// committed revisions. Such calls follow one another as long as the space stays steady.
    ghost edited_readied: { (a b : Self) → Self.Readied a b → Self.Edited a b };

    ghost edited_further: { (a b c : Self) → (IsTrue tells_stops → Steady a → Steady b) → Self.Edited a b
        → Self.Edited b c → Self.Edited a c };

    ghost edited_kind: { (a b : Self) → Self.Edited a b → SameKind (view a) (view b) };

    ghost edited_goes: { (a b : Self) → Self.Edited a b → GoesOn a b };

    ghost edited_stops: { IsTrue tells_stops → (a b : Self) → Self.Edited a b → Steady a
        → LeavesSame (moment a) (view a).history.revisions (Leaves a) (Leaves b) };

    /// What tells which revisions a stop leaves tells its bytes.
    ghost tells_all: { IsTrue tells_stops → IsTrue tells };

    /// What it tells is sound as long as it stands.
    ghost sound: { (a : Self) → Stands a → IsSound tells (view a) };
}
