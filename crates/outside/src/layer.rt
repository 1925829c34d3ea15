ghost use Rattle.std.specs.Prelude.{◌≡◌, ◌+◌, ◌-◌, ◌^◌, ◌≤◌, ◌↔◌, ℕ, Bool, List, length, IsTrue, IsErrOf, OnOk};
ghost use Rattle.std.specs.Prelude.{OnErr, Result};
ghost use Rattle.std.specs.List.{Contains};
ghost use Rattle.h5_base.specs.declared.extent.Extent.{Extent};
ghost use Rattle.h5_base.specs.declared.extent.MemClass.{MemClass};
ghost use Rattle.outside.specs.Array.{Array, Ends, bytes_of, over, SameOutside};
ghost use Rattle.outside.specs.Files.{Files, RestsAt};
ghost use Rattle.outside.specs.Store.{View, Goes, GoesOver};
ghost use Rattle.outside.specs.Layer.{LayerShape, SameIn, IsOwn, RoseIn, KeepsCounts, Undisturbed, StayIn};
ghost use Rattle.outside.specs.Layer.{AreAmong, LastOn};
ghost use Rattle.outside.specs.Space.{Ascend, AreCovered, AreRegions, LiesIn, RaisedInPart, raised, new_bytes};

use crate::{Failed, Kept, Store, WriteStop};
use h5_base::{Extent, MemClass, NoMemory, Region};

/// A sparse array of bytes with an end for each region, over files of a store that are the layer's own. What it tells
/// depends on the layer and on the content of these files alone.
///
/// The calls that write need that the layer may be written in the ranges that `prepare` was last given, and take no
/// memory. What that asks is told in parts, since a layer above prepares the one below for other ranges than its own:
/// the layer has begun, and the ranges fit.
pub trait Layer<S: Store>: Kept {
    /// Its bytes over files.
    ghost array: { Self → Files → Array };

    /// The end of each class.
    ghost ends: { Self → Ends };

    /// Its regions and its files.
    ghost shape: { Self → LayerShape };

    /// The ranges last given to `prepare`.
    ghost prepared: { Self → List Extent };

    /// The files that `settle` makes last: all of its files, but for those of a copy that was given up. A file drops
    /// out only in a call in which its count of faults rose.
    ghost lasting: { Self → List (List ℕ) };

    /// It stands on a store: its files have ids there, and what it keeps of them is so.
    ghost Stands: { Self → View → Type 0 };

    /// It stands, and what has to be done once before the first write was done.
    ghost Begun: { Self → View → Type 0 };

    /// The files stay within their limits when these ranges are written.
    ghost Fits: { Self → List Extent → Type 0 };

    /// Gives the bytes from `at` on, 0 where nothing is.
    fn read(&mut self, store: &mut S, at: u64, out: &mut [u8]) -> Result<(), Failed>
        requires stands { Stands self.old (S.view store.old) }
        requires fits { at + length out.old ≤ 2 ^ 64 }
        ensures bytes { IsTrue S.tells_files → OnOk result
            (out.new ≡ bytes_of (array self.old (S.view store.old).files) at (length out.old)) }
        ensures alike { Self.Alike self.old self.new }
        ensures failed { OnErr result (RoseIn (shape self.old).blamed (S.view store.old) (S.view store.new)) }
        ensures calm { OnOk result (StayIn (shape self.old).blamed (S.view store.old) (S.view store.new)) }
        ensures copy_calm { StayIn (shape self.old).copied (S.view store.old) (S.view store.new) }
        ensures counts { KeepsCounts (shape self.old) (S.view store.old) (S.view store.new) }
        ensures goes { Goes S.tells_files (λ q. ⊥) (S.view store.old) (S.view store.new) }
        ensures images { IsTrue S.tells_images → GoesOver (λ q. ⊥) (S.leaves store.old) (S.leaves store.new)
            (S.past store.old) (S.past store.new) };

    /// Writes the bytes from `at` on, a range within one region below its end and within the ranges prepared for.
    fn write(&mut self, store: &mut S, at: u64, bytes: &[u8]) -> Result<(), WriteStop>
        requires begun { Begun self.old (S.view store.old) }
        requires fits { Fits self.old (prepared self.old) }
        requires inside { (class : MemClass) × LiesIn (shape self.old).regions (ends self.old) class at
            (length bytes.now) }
        requires covered { AreCovered (prepared self.old) at (length bytes.now) }
        ensures wrote { IsTrue S.tells_files → OnOk result (array self.new (S.view store.new).files
            ≡ over (array self.old (S.view store.old).files) at bytes.now) }
        ensures wrote_main { IsTrue S.tells_files → IsErrOf result WriteStop.WoFailed
            → array self.new (S.view store.new).files ≡ over (array self.old (S.view store.old).files) at bytes.now }
        ensures in_part { IsTrue S.tells_files → IsErrOf result WriteStop.Failed → SameOutside at (length bytes.now)
            (array self.old (S.view store.old).files) (array self.new (S.view store.new).files) }
        ensures ends { ends self.new ≡ ends self.old }
        ensures shape { shape self.new ≡ shape self.old }
        ensures prepared { prepared self.new ≡ prepared self.old }
        ensures begun { OnOk result (Begun self.new (S.view store.new)) }
        ensures fits { OnOk result (Fits self.new (prepared self.new)) }
        ensures failed { IsErrOf result WriteStop.Failed
            → RoseIn (shape self.old).blamed (S.view store.old) (S.view store.new) }
        ensures copy_failed { IsErrOf result WriteStop.WoFailed
            → RoseIn (shape self.old).copied (S.view store.old) (S.view store.new) }
        ensures calm { ¬ IsErrOf result WriteStop.Failed
            → StayIn (shape self.old).blamed (S.view store.old) (S.view store.new) }
        ensures copy_calm { ¬ IsErrOf result WriteStop.WoFailed
            → StayIn (shape self.old).copied (S.view store.old) (S.view store.new) }
        ensures lasting { LastOn (lasting self.old) (lasting self.new) (S.view store.old) (S.view store.new) }
        ensures counts { KeepsCounts (shape self.old) (S.view store.old) (S.view store.new) }
        ensures goes { Goes S.tells_files (IsOwn (shape self.old)) (S.view store.old) (S.view store.new) }
        ensures images { IsTrue S.tells_images → GoesOver (IsOwn (shape self.old)) (S.leaves store.old)
            (S.leaves store.new) (S.past store.old) (S.past store.new) };

    /// Moves the end of a region up to `end`, which is at most its limit. The new bytes read as 0.
    fn raise(&mut self, store: &mut S, class: MemClass, end: u64) -> Result<(), WriteStop>
        requires begun { Begun self.old (S.view store.old) }
        requires fits { Fits self.old (prepared self.old) }
        requires up { ends self.old class ≤ end }
        requires below { end ≤ ((shape self.old).regions class).limit }
        requires covered { AreCovered (prepared self.old) (ends self.old class) (end - ends self.old class) }
        ensures raised { IsTrue S.tells_files → OnOk result (array self.new (S.view store.new).files
            ≡ over (array self.old (S.view store.old).files) (ends self.old class) (new_bytes
            (ends self.old) class end)) }
        ensures in_part { IsTrue S.tells_files → OnErr result (SameOutside (ends self.old class)
            (end - ends self.old class) (array self.old (S.view store.old).files)
            (array self.new (S.view store.new).files)) }
        ensures raised_main { IsTrue S.tells_files → IsErrOf result WriteStop.WoFailed
            → array self.new (S.view store.new).files ≡ over (array self.old (S.view store.old).files)
            (ends self.old class) (new_bytes (ends self.old) class end) }
        ensures ends { ¬ IsErrOf result WriteStop.Failed
            → ends self.new ≡ raised (shape self.old).regions (ends self.old) class end }
        ensures ends_in_part { RaisedInPart (shape self.old).regions (ends self.old) class end (ends self.new) }
        ensures shape { shape self.new ≡ shape self.old }
        ensures prepared { prepared self.new ≡ prepared self.old }
        ensures begun { OnOk result (Begun self.new (S.view store.new)) }
        ensures fits { OnOk result (Fits self.new (prepared self.new)) }
        ensures failed { IsErrOf result WriteStop.Failed
            → RoseIn (shape self.old).blamed (S.view store.old) (S.view store.new) }
        ensures copy_failed { IsErrOf result WriteStop.WoFailed
            → RoseIn (shape self.old).copied (S.view store.old) (S.view store.new) }
        ensures calm { ¬ IsErrOf result WriteStop.Failed
            → StayIn (shape self.old).blamed (S.view store.old) (S.view store.new) }
        ensures copy_calm { ¬ IsErrOf result WriteStop.WoFailed
            → StayIn (shape self.old).copied (S.view store.old) (S.view store.new) }
        ensures lasting { LastOn (lasting self.old) (lasting self.new) (S.view store.old) (S.view store.new) }
        ensures counts { KeepsCounts (shape self.old) (S.view store.old) (S.view store.new) }
        ensures goes { Goes S.tells_files (IsOwn (shape self.old)) (S.view store.old) (S.view store.new) }
        ensures images { IsTrue S.tells_images → GoesOver (IsOwn (shape self.old)) (S.leaves store.old)
            (S.leaves store.new) (S.past store.old) (S.past store.new) };

    /// Makes room for writes and raises in these ranges, in ascending order of their starts, and for no others.
    fn prepare(&mut self, ranges: &Vec<Extent>) -> Result<(), NoMemory>
        requires { Ascend ranges.now.items }
        ensures prepared { OnOk result (prepared self.new ≡ ranges.now.items) }
        ensures given { OnErr result ((r : Extent) → Contains (prepared self.old) r → Contains ranges.now.items r
            → Contains (prepared self.new) r) }
        ensures array { array self.new ≡ array self.old }
        ensures ends { ends self.new ≡ ends self.old }
        ensures shape { shape self.new ≡ shape self.old }
        ensures lasting { lasting self.new ≡ lasting self.old }
        ensures stands { (v : View) → Stands self.old v → Stands self.new v }
        ensures begun { (v : View) → Begun self.old v → Begun self.new v }
        ensures fits { (rs : List Extent) → Fits self.old rs → Fits self.new rs };

    /// Makes its files last as they read. What they read stays, also after a fault.
    fn settle(&mut self, store: &mut S) -> Result<(), WriteStop>
        requires stands { Stands self.old (S.view store.old) }
        ensures array { IsTrue S.tells_files
            → array self.new (S.view store.new).files ≡ array self.old (S.view store.old).files }
        ensures ends { ends self.new ≡ ends self.old }
        ensures shape { shape self.new ≡ shape self.old }
        ensures prepared { prepared self.new ≡ prepared self.old }
        ensures stands { OnOk result (Stands self.new (S.view store.new)) }
        ensures begun { OnOk result (Begun self.old (S.view store.old) → Begun self.new (S.view store.new)) }
        ensures fits { OnOk result ((rs : List Extent) → Fits self.old rs → Fits self.new rs) }
        ensures lasts { IsTrue S.tells_images → IsTrue (S.view store.old).honest → OnOk result ((q : List ℕ)
            → Contains (lasting self.new) q → RestsAt q ((S.view store.new).files q) (S.leaves store.new)) }
        ensures lasts_main { IsTrue S.tells_images → IsTrue (S.view store.old).honest
            → IsErrOf result WriteStop.WoFailed → (q : List ℕ) → Contains (shape self.old).blamed q
            → RestsAt q ((S.view store.new).files q) (S.leaves store.new) }
        ensures failed { IsErrOf result WriteStop.Failed
            → RoseIn (shape self.old).blamed (S.view store.old) (S.view store.new) }
        ensures copy_failed { IsErrOf result WriteStop.WoFailed
            → RoseIn (shape self.old).copied (S.view store.old) (S.view store.new) }
        ensures calm { ¬ IsErrOf result WriteStop.Failed
            → StayIn (shape self.old).blamed (S.view store.old) (S.view store.new) }
        ensures copy_calm { ¬ IsErrOf result WriteStop.WoFailed
            → StayIn (shape self.old).copied (S.view store.old) (S.view store.new) }
        ensures lasting { LastOn (lasting self.old) (lasting self.new) (S.view store.old) (S.view store.new) }
        ensures counts { KeepsCounts (shape self.old) (S.view store.old) (S.view store.new) }
        ensures goes { Goes S.tells_files (λ q. ⊥) (S.view store.old) (S.view store.new) }
        ensures images { IsTrue S.tells_images → (c : Files) → S.leaves store.new c → S.leaves store.old c }
        ensures past { IsTrue S.tells_images → GoesOver (λ q. ⊥) (S.leaves store.old) (S.leaves store.new)
            (S.past store.old) (S.past store.new) };

    fn region(&self, class: MemClass) -> Region
        ensures { result ≡ (shape self.now).regions class };

    fn end(&self, class: MemClass) -> u64
        ensures { result ≡ ends self.now class };

    /// Alike layers tell the same.
    ghost alike: { (a b : Self) → Self.Alike a b
        → (array a ≡ array b) × (ends a ≡ ends b) × (shape a ≡ shape b) × (prepared a ≡ prepared b) };

    ghost alike_lasting: { (a b : Self) → Self.Alike a b → lasting a ≡ lasting b };

    /// What a read leaves stands, has begun and fits as before.
    ghost alike_stands: { (a b : Self) → Self.Alike a b → (v : View) → Stands a v → Stands b v };

    ghost alike_begun: { (a b : Self) → Self.Alike a b → (v : View) → Begun a v → Begun b v };

    ghost alike_fits: { (a b : Self) → Self.Alike a b → (rs : List Extent) → Fits a rs → Fits b rs };

    /// What it tells depends on its own files alone.
    ghost frame: { (l : Self) (f g : Files) → SameIn (shape l).files f g → array l f ≡ array l g };

    /// It stands as long as its own files stay, and has begun as long.
    ghost stays: { (l : Self) (v w : View) → Undisturbed S.tells_files (shape l) v w → Stands l v → Stands l w };

    ghost stays_begun: { (l : Self) (v w : View) → Undisturbed S.tells_files (shape l) v w → Begun l v → Begun l w };

    /// What has begun stands.
    ghost begun_stands: { (l : Self) (v : View) → Begun l v → Stands l v };

    /// Each end lies in its region, and regions are equal or apart, as long as it stands.
    ghost sound: { (l : Self) (v : View) → Stands l v → AreRegions (shape l).regions (ends l) };

    /// The files whose faults it answers are its own, and last after a settle.
    ghost blames_own: { (l : Self) → AreAmong (shape l).blamed (shape l).files
        × AreAmong (shape l).copied (shape l).files };

    ghost blamed_last: { (l : Self) → AreAmong (shape l).blamed (lasting l) };
}
