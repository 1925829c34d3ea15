ghost use Rattle.std.specs.Prelude.{◌≡◌, ◌++◌, ◌+◌, ◌^◌, ◌<◌, ◌≤◌, ℕ, Bool, List, [], ◌∷◌, length, take, drop, Some};
ghost use Rattle.std.specs.Prelude.{None, IsTrue, IsOk, IsErr, IsErrOf, IfOk, OnOk, OnErr, slice_index};
ghost use Rattle.outside.specs.Files.{Files, Snapshot, with_file, written, resized, WrittenInPart, ResizedInPart};
ghost use Rattle.outside.specs.Files.{Torn, Cut, InFile, Follows, RestsAt};
ghost use Rattle.outside.specs.Store.{View, AreIds, Calls, Gives, SameIds, IsNow, Passes};

use crate::Failed;
use h5_base::Name;
use thiserror::Error;

/// A store's own number of a file.
#[derive(Clone, Copy, Debug, PartialEq, Eq)]
pub struct FileId {
    pub n: u64,
}

/// Why a store gives no id.
#[derive(Clone, Copy, Debug, PartialEq, Eq, Error)]
pub enum FileStop {
    #[error("out of memory")]
    NoMemory,
    #[error("fault")]
    Failed,
}

/// Files by name; an absent file and an empty one are one thing. Between two syncs of a file that succeed, each
/// written range, and the part past the length at the last one, may hold any bytes after a stop, and the length
/// may be any between the smallest and the greatest since then. All other bytes stay.
///
/// A call answers `Failed` only where its own count of faults rose: that of `file`, or that of its id.
pub trait Store {
    /// It tells its files.
    ghost tells_files: { Bool };

    /// It tells the images that a stop may leave, and those of all moments so far.
    ghost tells_images: { Bool };

    /// Ids, names, counts of faults and files.
    ghost view: { Self → View };

    /// The images that a stop now may leave.
    ghost leaves: { Self → Files → Type 0 };

    /// The snapshots of all moments so far.
    ghost past: { Self → Snapshot → Type 0 };

    /// The id of a file. No file changes.
    fn file(&mut self, name: &Name) -> Result<FileId, FileStop>
        ensures given { IfOk result (λ id. Gives name.now id.n (view self.old) (view self.new)) }
        ensures same { OnErr result (SameIds (view self.old) (view self.new)) }
        ensures call { Calls tells_files None (IsErrOf result FileStop.Failed) (λ _. ⊥) (view self.old)
            (view self.new) }
        ensures images { IsTrue tells_images → (c : Files) → leaves self.new c → leaves self.old c }
        ensures time { IsTrue tells_images
            → Passes ((view self.new).files ∷ []) (view self.new) (leaves self.new) (past self.old) (past self.new) };

    /// The length of a file in bytes.
    fn len(&mut self, id: FileId) -> Result<u64, Failed>
        requires { 0 < length ((view self.old).names id.n) }
        ensures len { IsTrue tells_files
            → IfOk result (λ n. n ≡ length ((view self.old).files ((view self.old).names id.n))) }
        ensures names { (view self.new).names ≡ (view self.old).names }
        ensures ids { (view self.new).ids ≡ (view self.old).ids }
        ensures call { Calls tells_files (Some id.n) (IsErr result) (λ _. ⊥) (view self.old) (view self.new) }
        ensures images { IsTrue tells_images → (c : Files) → leaves self.new c → leaves self.old c }
        ensures time { IsTrue tells_images
            → Passes ((view self.new).files ∷ []) (view self.new) (leaves self.new) (past self.old) (past self.new) };

    /// Gives the bytes from `at` on, as many as `out` has, and their count: fewer only at the file's end.
    fn read(&mut self, id: FileId, at: u64, out: &mut [u8]) -> Result<usize, Failed>
        requires given { 0 < length ((view self.old).names id.n) }
        requires fits { at + length out.old ≤ 2 ^ 49 }
        ensures count { IfOk result (λ n. n ≤ length out.old) }
        ensures bytes { IsTrue tells_files → IfOk result (λ n.
            take n out.new ≡ take (length out.old) (drop at ((view self.old).files ((view self.old).names id.n)))) }
        ensures names { (view self.new).names ≡ (view self.old).names }
        ensures ids { (view self.new).ids ≡ (view self.old).ids }
        ensures call { Calls tells_files (Some id.n) (IsErr result) (λ _. ⊥) (view self.old) (view self.new) }
        ensures images { IsTrue tells_images → (c : Files) → leaves self.new c → leaves self.old c }
        ensures time { IsTrue tells_images
            → Passes ((view self.new).files ∷ []) (view self.new) (leaves self.new) (past self.old) (past self.new) };

    /// Writes the bytes from `at` on, with zeros up to `at` where the file is shorter. After `Failed` the file
    /// may have changed in this range alone, and by these zeros.
    fn write(&mut self, id: FileId, at: u64, bytes: &[u8]) -> Result<(), Failed>
        requires given { 0 < length ((view self.old).names id.n) }
        requires fits { at + length bytes.now ≤ 2 ^ 49 }
        ensures written { IsTrue tells_files → let name = (view self.old).names id.n in
            OnOk result ((view self.new).files name ≡ written at bytes.now ((view self.old).files name)) }
        ensures in_part { IsTrue tells_files → let name = (view self.old).names id.n in
            OnErr result (WrittenInPart at (length bytes.now) ((view self.old).files name)
            ((view self.new).files name)) }
        ensures names { (view self.new).names ≡ (view self.old).names }
        ensures ids { (view self.new).ids ≡ (view self.old).ids }
        ensures call { Calls tells_files (Some id.n) (IsErr result) (λ q. q ≡ (view self.old).names id.n)
            (view self.old) (view self.new) }
        ensures images { IsTrue tells_images
            → Follows (InFile ((view self.old).names id.n) (Torn at (length bytes.now))) (leaves self.old)
            (leaves self.new) }
        ensures time { IsTrue tells_images
            → OnOk result (Passes ((view self.new).files ∷ []) (view self.new) (leaves self.new) (past self.old)
            (past self.new)) }
        ensures time_failed { IsTrue tells_images
            → let name = (view self.old).names id.n in let old = (view self.old).files in
            OnErr result (Passes (old ∷ with_file old name (written at bytes.now (old name)) ∷ []) (view self.new)
            (leaves self.new) (past self.old) (past self.new)) };

    /// Cuts the file to `n` bytes, or lengthens it by zeros. After `Failed` its length may be any between the
    /// old one and `n`.
    fn set_len(&mut self, id: FileId, n: u64) -> Result<(), Failed>
        requires given { 0 < length ((view self.old).names id.n) }
        requires fits { n ≤ 2 ^ 49 }
        ensures resized { IsTrue tells_files → let name = (view self.old).names id.n in
            OnOk result ((view self.new).files name ≡ resized n ((view self.old).files name)) }
        ensures in_part { IsTrue tells_files → let name = (view self.old).names id.n in
            OnErr result (ResizedInPart n ((view self.old).files name) ((view self.new).files name)) }
        ensures names { (view self.new).names ≡ (view self.old).names }
        ensures ids { (view self.new).ids ≡ (view self.old).ids }
        ensures call { Calls tells_files (Some id.n) (IsErr result) (λ q. q ≡ (view self.old).names id.n)
            (view self.old) (view self.new) }
        ensures images { IsTrue tells_images
            → Follows (InFile ((view self.old).names id.n) (Cut n)) (leaves self.old) (leaves self.new) }
        ensures time { IsTrue tells_images
            → Passes ((view self.new).files ∷ []) (view self.new) (leaves self.new) (past self.old) (past self.new) };

    /// Makes the file last as it reads: after `Ok`, over an honest store, every stop leaves it so.
    fn sync(&mut self, id: FileId) -> Result<(), Failed>
        requires { 0 < length ((view self.old).names id.n) }
        ensures names { (view self.new).names ≡ (view self.old).names }
        ensures ids { (view self.new).ids ≡ (view self.old).ids }
        ensures call { Calls tells_files (Some id.n) (IsErr result) (λ _. ⊥) (view self.old) (view self.new) }
        ensures images { IsTrue tells_images → (c : Files) → leaves self.new c → leaves self.old c }
        ensures kept { IsTrue tells_images → IsTrue (view self.old).honest → let name = (view self.old).names id.n in
            OnOk result (RestsAt name ((view self.old).files name) (leaves self.new)) }
        ensures time { IsTrue tells_images
            → Passes ((view self.new).files ∷ []) (view self.new) (leaves self.new) (past self.old) (past self.new) };

    /// Its ids are told apart, and no other number has a name or a fault.
    ghost ids_stand: { (s : Self) → AreIds (view s) };

    /// The files as they read are one of the images.
    ghost reads_now: { IsTrue tells_images → (s : Self) → leaves s (view s).files };

    /// Each image of this moment has a snapshot.
    ghost counts_now: { IsTrue tells_images → (s : Self) (c : Files) → leaves s c
        → (readings : List Files) × past s (record { moment = (view s).moment; image = c; readings = readings }) };

    /// This moment has no other, and no later moment has one.
    ghost only_now: { IsTrue tells_images → (s : Self) (x : Snapshot) → past s x → (view s).moment ≤ x.moment
        → IsNow (view s) (leaves s) x };
}
