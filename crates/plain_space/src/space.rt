ghost use Rattle.std.specs.Prelude.{◌≡◌, ◌^◌, ◌≤◌};

use crate::opening::OpenRefused;
use crate::part::read_part;
use h5_base::{Comment, Extent, MemClass, NoMemory, Region};
use outside::{CommitAnswer, CommitStop, Failed, FileId, Kept, Space, Store, WriteStop};
use std::alloc::Global;

/// The addresses are below 2^48.
const LIMIT: u64 = 1 << 48;

/// One file of a store as a space: address a is byte a of the file. Each class has the region of all addresses below
/// 2^48, and each class's end is the file's length, or 2^48 where the file is longer: its bytes from there on are never
/// seen, and stay. It has no revisions. After a raise that failed the end is the one that was asked for.
#[derive(Drop)]
pub struct PlainSpace<S> {
    store: S,
    id: FileId,
    end: u64,
    prepared: Vec<Extent>,
    ghost short: { end ≤ 2 ^ 48 },
}

impl<S: Store> PlainSpace<S> {
    ghost use Rattle.std.specs.Prelude.{◌<◌, ℕ, [], length, Option, Some, IsTrue, IfOk, OnErr};
    ghost use Rattle.outside.specs.Array.{array_of};
    ghost use Rattle.outside.specs.Causes.{Rose, OneRose};
    ghost use Rattle.outside.specs.Store.{SomeRose};
    ghost use Rattle.plain_space.specs.File.{file_in, seen, view_of, faults_of, RestsIn, Looks, Touches};
    ghost use Rattle.plain_space.specs.Plain.{store_of, id_of, end_of, prepared_of, store_left};
    ghost use Rattle.plain_space.specs.declared.space.PlainSpace.{PlainSpace};

    /// The file with this id, for whose length the store is asked in one call. The store is handed back where the call
    /// fails. It takes no memory.
    pub fn open(alloc: Global, mut store: S, id: FileId) -> Result<PlainSpace<S>, OpenRefused<S>>
        requires { 0 < length ((S.view store).names id.n) }
        ensures id { IfOk result (λ space. id_of space ≡ id.n) }
        ensures end { IsTrue S.tells_files → IfOk result
            (λ space. end_of space ≡ length (seen (file_in (S.view store) id.n))) }
        ensures prepared { IfOk result (λ space. prepared_of space ≡ []) }
        ensures stands { IfOk result (λ space. ⟦<PlainSpace<S> as Space>⟧.Stands space) }
        ensures view { IfOk result (λ space. ⟦<PlainSpace<S> as Space>⟧.view space ≡ view_of S.tells_files
            (S.view (store_of space)) (id_of space) (end_of space) []) }
        ensures failed { OnErr result (Rose ((S.view store).counts (Some id.n))
            ((S.view (store_left result)).counts (Some id.n))) }
        ensures calm { IfOk result (λ space. (S.view (store_of space)).counts (Some id.n)
            ≡ (S.view store).counts (Some id.n)) }
        ensures looks { Looks S.tells_files S.tells_images id.n (S.view store) (S.view (store_left result))
            (S.leaves store) (S.leaves (store_left result)) (S.past store) (S.past (store_left result)) }
    {
        match store.len(id) {
            Ok(len) => Ok(PlainSpace {
                store,
                id,
                end: len.min(LIMIT),
                prepared: Vec::new(alloc),
            }),
            Err(Failed) => Err(OpenRefused { store }),
        }
    }

    /// Gives the store back. It makes no call and takes no memory.
    pub fn into_store(self) -> S
        ensures store { result ≡ store_of self }
        ensures view { ⟦<PlainSpace<S> as Space>⟧.view self ≡ view_of S.tells_files (S.view result) (id_of self)
            (end_of self) (prepared_of self) }
        ensures array { IsTrue S.tells_files → (⟦<PlainSpace<S> as Space>⟧.view self).array ≡ array_of
            (seen (file_in (S.view result) (id_of self))) }
        ensures faults { ⟦<PlainSpace<S> as Space>⟧.faults self ≡ faults_of (S.view result) (id_of self) }
        ensures moment { ⟦<PlainSpace<S> as Space>⟧.moment self ≡ (S.view result).moment }
        ensures rests { ⟦<PlainSpace<S> as Space>⟧.Rests self
            → RestsIn S.tells_files S.tells_images (S.view result) (S.leaves result) (id_of self) }
        // What the calls on the space, since it was another, left of its store.
        ensures looked { (a : PlainSpace S) → ⟦<PlainSpace<S> as Kept>⟧.Alike a self
            → Looks S.tells_files S.tells_images (id_of a) (S.view (store_of a)) (S.view result)
            (S.leaves (store_of a)) (S.leaves result) (S.past (store_of a)) (S.past result) }
        ensures touched { (a : PlainSpace S) → ⟦<PlainSpace<S> as Space>⟧.GoesOn a self
            → Touches S.tells_files S.tells_images (id_of a) (S.view (store_of a)) (S.view result)
            (S.leaves (store_of a)) (S.leaves result) (S.past (store_of a)) (S.past result) }
        ensures same_id { (a : PlainSpace S) → ⟦<PlainSpace<S> as Space>⟧.GoesOn a self → id_of self ≡ id_of a }
        // With the same bytes and ends, it is the same file, with the bytes that aren't seen.
        ensures same_file { (a : PlainSpace S) → IsTrue S.tells_files → ⟦<PlainSpace<S> as Space>⟧.GoesOn a self
            → (⟦<PlainSpace<S> as Space>⟧.view self).array ≡ (⟦<PlainSpace<S> as Space>⟧.view a).array
            → (⟦<PlainSpace<S> as Space>⟧.view self).ends ≡ (⟦<PlainSpace<S> as Space>⟧.view a).ends
            → file_in (S.view result) (id_of a) ≡ file_in (S.view (store_of a)) (id_of a) }
        // A fault of the space is one of the store.
        ensures rose { (a : PlainSpace S) → ⟦<PlainSpace<S> as Space>⟧.GoesOn a self
            → OneRose (⟦<PlainSpace<S> as Space>⟧.faults a) (⟦<PlainSpace<S> as Space>⟧.faults self)
            → SomeRose (S.view (store_of a)) (S.view result) }
        // Where the counts of the space are as they were, so are all of the store's.
        ensures calm { (a : PlainSpace S) → ⟦<PlainSpace<S> as Space>⟧.GoesOn a self
            → ⟦<PlainSpace<S> as Space>⟧.faults self ≡ ⟦<PlainSpace<S> as Space>⟧.faults a → (k : Option ℕ)
            → (S.view result).counts k ≡ (S.view (store_of a)).counts k }
    {
        let PlainSpace {
            store,
            id: _,
            end: _,
            prepared: _,
        } = self;
        store
    }
}

impl<S: Store> Kept for PlainSpace<S> {
    ghost use Rattle.plain_space.specs.Alike.{IsAlike, alike_itself, alike_on};

    ghost Alike = { λ a b. IsAlike S.tells_files S.tells_images (S.view a.store) (S.view b.store) (S.leaves a.store)
        (S.leaves b.store) (S.past a.store) (S.past b.store) a b };

    ghost reflexive = { λ a. alike_itself S.tells_files S.tells_images (S.view a.store) (S.leaves a.store)
        (S.past a.store) a };

    ghost transitive = { λ a b c first second. alike_on S.tells_files S.tells_images (S.view a.store) (S.view b.store)
        (S.view c.store)
        (S.leaves a.store) (S.leaves b.store) (S.leaves c.store) (S.past a.store) (S.past b.store)
        (S.past c.store) a b c first second };
}

impl<S: Store> Space for PlainSpace<S> {
    ghost use Rattle.std.specs.Prelude.{Bool, false};
    ghost use Rattle.std.proofs.Common.{arith, refl};
    ghost use Rattle.plain_space.specs.File.{view_of, faults_of, IsOpen, RestsIn};
    ghost use Rattle.plain_space.specs.Alike.{view_alike, stands_alike, rests_alike, is_sound};
    ghost use Rattle.plain_space.specs.CameFrom.{CameFrom, IsReadied, readied_itself, stands_readied, rests_readied};
    ghost use Rattle.plain_space.specs.CameFrom.{came_alike, came_on, came_counts, came_readied};
    ghost use Rattle.std.proofs.lemmas.Bool.{false≢true};

    ghost tells = { S.tells_files };

    ghost tells_stops = { false };

    ghost view = { λ s. view_of S.tells_files (S.view s.store) s.id.n s.end s.prepared.items };

    ghost Stands = { λ s. IsOpen S.tells_files (S.view s.store) s.id.n s.end };

    ghost faults = { λ s. faults_of (S.view s.store) s.id.n };

    ghost copy_faults = { λ _ _. 0 };

    ghost Rests = { λ s. RestsIn S.tells_files S.tells_images (S.view s.store) (S.leaves s.store) s.id.n };

    ghost moment = { λ s. (S.view s.store).moment };

    ghost GoesOn = { λ a b. CameFrom S.tells_files S.tells_images (S.view a.store) (S.view b.store) (S.leaves a.store)
        (S.leaves b.store) (S.past a.store) (S.past b.store) a b };

    ghost Readied = { λ a b. IsReadied a b };

    // Every call goes on in this way.
    ghost Edited = { λ a b. CameFrom S.tells_files S.tells_images (S.view a.store) (S.view b.store) (S.leaves a.store)
        (S.leaves b.store) (S.past a.store) (S.past b.store) a b };

    ghost Steady = { λ _. ⊥ };

    ghost Leaves = { λ _ _ _. ⊥ };

    fn read(&mut self, at: u64, out: &mut [u8]) -> Result<(), Failed> {
        read_part(&mut self.store, self.id, at, out)
    }

    fn write(&mut self, at: u64, bytes: &[u8]) -> Result<(), WriteStop> {
        match self.store.write(self.id, at, bytes) {
            Ok(()) => Ok(()),
            Err(Failed) => Err(WriteStop::Failed),
        }
    }

    fn raise(&mut self, _: MemClass, end: u64) -> Result<(), WriteStop> {
        if end == self.end {
            return Ok(());
        }
        self.end = end;
        match self.store.set_len(self.id, end) {
            Ok(()) => Ok(()),
            Err(Failed) => Err(WriteStop::Failed),
        }
    }

    fn prepare(&mut self, ranges: &Vec<Extent>) -> Result<(), NoMemory> {
        match ranges.clone() {
            Ok(copy) => {
                self.prepared = copy;
                Ok(())
            }
            Err(_) => Err(NoMemory),
        }
    }

    fn settle(&mut self) -> Result<(), WriteStop> {
        match self.store.sync(self.id) {
            Ok(()) => Ok(()),
            Err(Failed) => Err(WriteStop::Failed),
        }
    }

    fn region(&self, _: MemClass) -> Region {
        Region {
            start: 0,
            limit: LIMIT,
        }
    }

    fn end(&self, _: MemClass) -> u64 {
        self.end
    }

    fn writable(&self) -> bool {
        true
    }

    fn has_onion(&self) -> bool {
        false
    }

    fn room_left(&self, _: &Vec<Extent>) -> bool {
        true
    }

    fn commit_refusal(&self, _: &Vec<Extent>, _: &Comment, _: i64) -> Option<CommitAnswer> {
        Some(CommitAnswer::NoOnion)
    }

    fn commit(&mut self, _: &Comment, _: i64) -> Result<CommitAnswer, CommitStop> {
        Ok(CommitAnswer::NoOnion)
    }

    ghost alike = { λ a b h. view_alike S.tells_files S.tells_images (S.view a.store) (S.view b.store)
        (S.leaves a.store) (S.leaves b.store) (S.past a.store) (S.past b.store) a b h };

    ghost goes_alike = { λ a b h. came_alike S.tells_files S.tells_images (S.view a.store) (S.view b.store)
        (S.leaves a.store) (S.leaves b.store) (S.past a.store) (S.past b.store) a b h };

    ghost goes_further = { λ a b c first second. came_on S.tells_files S.tells_images (S.view a.store) (S.view b.store)
        (S.view c.store)
        (S.leaves a.store) (S.leaves b.store) (S.leaves c.store) (S.past a.store) (S.past b.store)
        (S.past c.store) a b c first second };

    ghost goes_counts = { λ a b h. came_counts S.tells_files S.tells_images (S.view a.store) (S.view b.store)
        (S.leaves a.store) (S.leaves b.store) (S.past a.store) (S.past b.store) a b h };

    ghost goes_copy = { λ a b h k. omega arith };

    ghost goes_moment = { λ a b h. h.store.goes.moment };

    ghost alike_copy = { λ a b h. refl };

    ghost alike_stands = { λ a b h. stands_alike S.tells_files S.tells_images (S.view a.store) (S.view b.store)
        (S.leaves a.store) (S.leaves b.store) (S.past a.store) (S.past b.store) a b h };

    ghost alike_rests = { λ a b h. rests_alike S.tells_files S.tells_images (S.view a.store) (S.view b.store)
        (S.leaves a.store) (S.leaves b.store) (S.past a.store) (S.past b.store) a b h };

    ghost alike_steady = { λ told. absurd (false≢true told) };

    ghost alike_stops = { λ told. absurd (false≢true told) };

    ghost readied_view = { λ a b h k.
        view_of S.tells_files (S.view (h.store k)) (h.id k).n (h.end k) b.prepared.items };

    ghost readied_stands = { λ a b h stands. stands_readied S.tells_files S.view a b h stands };

    ghost readied_counts = { λ a b h k. faults_of (S.view (h.store k)) (h.id k).n };

    ghost readied_copy = { λ a b h. refl };

    ghost readied_rests = { λ a b h rests. rests_readied S.tells_files S.tells_images S.view S.leaves a b h rests };

    ghost readied_moment = { λ a b h k. (S.view (h.store k)).moment };

    ghost readied_steady = { λ told. absurd (false≢true told) };

    ghost readied_past = { λ told. absurd (false≢true told) };

    ghost readied_itself = { λ a. readied_itself a };

    ghost edited_readied = { λ a b h. came_readied S.tells_files S.tells_images S.view S.leaves S.past a b h };

    ghost edited_further = { λ a b c steady first second. came_on S.tells_files S.tells_images (S.view a.store)
        (S.view b.store) (S.view c.store)
        (S.leaves a.store) (S.leaves b.store) (S.leaves c.store) (S.past a.store) (S.past b.store)
        (S.past c.store) a b c first second };

    ghost edited_kind = { λ a b h. record {
      regions = refl;
      writable = refl;
      revisions = (λ none. none, λ none. none);
    } };

    ghost edited_goes = { λ a b h. h };

    ghost edited_stops = { λ told. absurd (false≢true told) };

    ghost tells_all = { λ told. absurd (false≢true told) };

    ghost sound = { λ a _. is_sound S.tells_files (S.view a.store) a.id.n a.end a.prepared.items a.short };
}
