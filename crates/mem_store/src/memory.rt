ghost use Rattle.std.specs.Prelude.{◌≡◌, ◌≢◌, ◌+◌, ◌-◌, ◌<◌, ◌≤◌, ◌^◌, ◌⊎◌, ◌↔◌, ℕ, List, [], ◌∷◌, ◌++◌, length, take};
ghost use Rattle.std.specs.Prelude.{drop, max, slice_index, slice_index_or, IfOk, OnOk, OnErr, IsTrue, Any};
ghost use Rattle.std.specs.Prelude.{vec_capacity};
ghost use Rattle.outside.specs.Files.{written, resized};
ghost use Rattle.file_ids.specs.Ids.{AreSound, place_of};
ghost use Rattle.mem_store.specs.Held.{IsAt, first_bytes};

use crate::arena::copy_from;
use crate::given::{Fail, NamedBytes, Room};
use crate::table::{Op, Table};
use file_ids::{FileIds, one_more};
use h5_base::{Name, NoMemory};
use outside::{Failed, FileId, FileStop, Store};
use std::alloc::Global;

/// A store in memory. Its calls that fail are those of a list, and those past its room. The memory for the bytes
/// of the room is taken when it is made, that for names in `file`.
#[derive(Drop)]
pub struct MemStore {
    alloc: Global,
    ids: FileIds,
    table: Table,
    calls: u64,
    written: u64,
    fails: Vec<Fail>,
    room: Room,
    ghost ready: { room.bytes ≤ vec_capacity table.bytes },
    ghost sound: { AreSound ids },
    ghost each: { length table.entries.items ≡ length ids.names },
}

fn is_at(fail: &Fail, name: &Name, op: Op, before: u64) -> bool
    ensures { IsTrue result ↔ IsAt name.now op (before + 1) fail.now }
{
    if fail.name.as_slice() != name.as_slice() || fail.op != op {
        return false;
    }
    fail.nth > 0 && fail.nth - 1 == before
}

fn is_listed(fails: &[Fail], name: &Name, op: Op, before: u64) -> bool
    ensures { IsTrue result ↔ Any (IsAt name.now op (before + 1)) fails.now }
{
    fails.iter().any(|fail| is_at(fail, name, op, before))
}

impl MemStore {
    ghost use Rattle.mem_store.specs.Memory.{held};
    ghost use Rattle.mem_store.specs.Held.{IsListed, IsLate, IsFull, counted, with_fault, after_fault, after_write};
    ghost use Rattle.mem_store.specs.Held.{after_set_len, asked, after_file_fault, with_new, content, Looks, Changes};
    ghost use Rattle.mem_store.specs.Held.{IsNew, nothing, view, faults_at, calls_at};
    ghost use Rattle.std.specs.List.{sum_by};
    ghost use Rattle.std.specs.Prelude.{true, false, None, Option};
    ghost use Rattle.mem_store.specs.Table.{lens_of};

    /// A store with these files, of two with one name the first, of which the calls listed fail, and those past the
    /// room.
    pub fn new(
        alloc: Global,
        files: Vec<NamedBytes>,
        fails: Vec<Fail>,
        room: Room,
    ) -> Result<MemStore, NoMemory>
        ensures files { IfOk result (λ m. (q : List ℕ) → (view (held m)).files q ≡ first_bytes files.items q) }
        ensures new { IfOk result (λ m. IsNew (held m)) }
        ensures counts { IfOk result (λ m. (k : Option ℕ) → (view (held m)).counts k ≡ 0) }
        ensures honest { IfOk result (λ m. (view (held m)).honest ≡ true) }
        ensures fails { IfOk result (λ m. (held m).fails ≡ fails.items) }
        ensures room { IfOk result (λ m. (held m).room ≡ room) }
    {
        let mut store = MemStore::empty(alloc, fails, room)?;
        for file in files {
            match store.ids.find(&file.name) {
                Some(_) => {}
                None => {
                    store.add(file.name, file.bytes.as_slice())?;
                }
            }
        }
        Ok(store)
    }

    // A store with no files yet.
    fn empty(alloc: Global, fails: Vec<Fail>, room: Room) -> Result<MemStore, NoMemory>
        ensures { IfOk result (λ m. held m ≡ nothing fails.items room) }
    {
        let Ok(table) = Table::new(alloc, room.bytes as usize) else {
            return Err(NoMemory);
        };
        Ok(MemStore {
            alloc,
            ids: FileIds::new(alloc),
            table,
            calls: 0,
            written: 0,
            fails,
            room,
        })
    }

    // One file more, with these bytes, and its id.
    fn add(&mut self, name: Name, bytes: &[u8]) -> Result<usize, NoMemory>
        requires { place_of name (held self.old).ids.names ≡ length (held self.old).ids.names }
        ensures id { IfOk result (λ id. id ≡ length (held self.old).ids.names) }
        ensures ok { OnOk result (held self.new ≡ with_new name bytes.now (held self.old)) }
        ensures err { OnErr result (held self.new ≡ held self.old) }
    {
        self.table.reserve(bytes.len())?;
        let id = self.ids.add(name)?;
        self.table.add(bytes);
        Ok(id)
    }

    /// The bytes of a file, none where there is none.
    pub fn bytes_of(&self, name: &Name) -> &[u8]
        ensures { result.now ≡ (view (held self.now)).files name.now }
    {
        match self.ids.find(name) {
            Some(i) => self.table.bytes_at(i),
            None => &[],
        }
    }

    /// The faults of the calls on a file, 0 where there is none.
    pub fn faults_of(&self, name: &Name) -> u64
        ensures { result ≡ faults_at name.now (held self.now) }
    {
        match self.ids.find(name) {
            Some(i) => self.ids.faults(i),
            None => 0,
        }
    }

    /// The calls of a kind on a file so far, 0 where there is none.
    pub fn calls(&self, name: &Name, op: Op) -> u64
        ensures { result ≡ calls_at name.now op (held self.now) }
    {
        match self.ids.find(name) {
            Some(i) => self.table.tally(i).of(op),
            None => 0,
        }
    }

    /// The faults of `file`.
    pub fn file_faults(&self) -> u64
        ensures { result ≡ (view (held self.now)).counts None }
    {
        self.ids.own_faults()
    }

    // Counts a call on a file, and tells whether it is one of the list or past the room of calls.
    fn strikes(&mut self, i: usize, op: Op) -> bool
        requires { i < length (held self.old).ids.names }
        ensures told { IsTrue result ↔ (IsListed op i (held self.old) ⊎ IsLate (held self.old)) }
        ensures counted { held self.new ≡ counted op i (held self.old) }
    {
        let late = self.room.calls <= self.calls;
        let listed = is_listed(
            self.fails.as_slice(),
            self.ids.name(i),
            op,
            self.table.tally(i).of(op),
        );
        self.calls = one_more(self.calls);
        self.table.count_call(i, op);
        listed || late
    }

    fn fault(&mut self, i: usize) -> Failed
        requires { i < length (held self.old).ids.names }
        ensures { held self.new ≡ with_fault i (held self.old) }
    {
        self.ids.count_fault(i);
        Failed
    }

    // Whether the room of bytes is passed where a file has `len` bytes and `more` were written.
    fn is_full_with(&self, i: usize, len: u64, more: u64) -> bool
        requires { i < length (held self.now).ids.names }
        ensures full { IsTrue result ↔ (self.now.room.bytes < sum_by length (held self.now).contents - length
            (content i (held self.now)) + len + (self.now.written + more)) }
        ensures fits { result ≡ false → length self.now.table.bytes.items - slice_index
            (lens_of self.now.table.entries.items) i + len ≤ self.now.room.bytes }
    {
        let others = self.table.total() - self.table.len_at(i);
        let after = others as u128 + len as u128 + (self.written as u128 + more as u128);
        after > self.room.bytes as u128
    }

    // Counts a call after which a file would have `len` bytes and `more` would be written, and tells whether it
    // fails.
    fn fails_with(&mut self, i: usize, op: Op, len: u64, more: u64) -> bool
        requires { i < length (held self.old).ids.names }
        ensures told { IsTrue result ↔ ((IsListed op i (held self.old) ⊎ IsLate (held self.old))
            ⊎ ((held self.old).room.bytes < sum_by length (held self.old).contents - length
            (content i (held self.old)) + len + ((held self.old).written + more))) }
        ensures counted { held self.new ≡ counted op i (held self.old) }
        ensures entry { slice_index (lens_of self.new.table.entries.items) i ≡ length (content i (held self.old)) }
        ensures fits { result ≡ false → length self.new.table.bytes.items - slice_index
            (lens_of self.new.table.entries.items) i + len ≤ self.new.room.bytes }
        ensures written { result ≡ false → self.new.written + more < 2 ^ 64 }
    {
        let strikes = self.strikes(i, op);
        let _entry = self.table.len_at(i);
        let full = self.is_full_with(i, len, more);
        strikes || full
    }

    fn len_of(&mut self, i: usize) -> Result<u64, Failed>
        requires { i < length (held self.old).ids.names }
        ensures len { IfOk result (λ n. n ≡ length (content i (held self.old))) }
        ensures exact { Looks Op.Len i (held self.old) (held self.new) result }
    {
        if self.strikes(i, Op::Len) {
            return Err(self.fault(i));
        }
        Ok(self.table.len_at(i) as u64)
    }

    fn read_at(&mut self, i: usize, at: usize, out: &mut [u8]) -> Result<usize, Failed>
        requires { i < length (held self.old).ids.names }
        ensures count { IfOk result (λ n. n ≤ length out.old) }
        ensures bytes { IfOk result (λ n. take n out.new ≡ take (length out.old)
            (drop at (content i (held self.old)))) }
        ensures exact { Looks Op.Read i (held self.old) (held self.new) result }
    {
        if self.strikes(i, Op::Read) {
            return Err(self.fault(i));
        }
        Ok(copy_from(self.table.bytes_at(i), at, out))
    }

    fn write_at(&mut self, i: usize, at: u64, piece: &[u8]) -> Result<(), Failed>
        requires within { i < length (held self.old).ids.names }
        requires fits { at + length piece.now ≤ 2 ^ 49 }
        ensures { Changes Op.Write i (held self.old) (after_write i at piece.now (held self.old))
            (held self.new) result }
    {
        let more = piece.len() as u64;
        let len = (self.table.len_at(i) as u64).max(at + more);
        if self.fails_with(i, Op::Write, len, more) {
            return Err(self.fault(i));
        }
        self.table.write(i, at as usize, piece);
        self.written += more;
        Ok(())
    }

    fn resize(&mut self, i: usize, n: u64) -> Result<(), Failed>
        requires within { i < length (held self.old).ids.names }
        ensures { Changes Op.SetLen i (held self.old) (after_set_len i n (held self.old)) (held self.new) result }
    {
        if self.fails_with(i, Op::SetLen, n, 0) {
            return Err(self.fault(i));
        }
        self.table.set_len(i, n as usize);
        Ok(())
    }

    fn flush(&mut self, i: usize) -> Result<(), Failed>
        requires { i < length (held self.old).ids.names }
        ensures { Looks Op.Sync i (held self.old) (held self.new) result }
    {
        if self.strikes(i, Op::Sync) {
            return Err(self.fault(i));
        }
        Ok(())
    }

    fn ask(&mut self, name: &Name) -> Result<FileId, FileStop>
        ensures named { 0 < length name.now }
        ensures id { IfOk result (λ id. id.n ≡ place_of name.now (held self.old).ids.names) }
        ensures known { OnOk result (place_of name.now (held self.old).ids.names < length (held self.old).ids.names
            → held self.new ≡ asked (held self.old)) }
        ensures new { OnOk result (place_of name.now (held self.old).ids.names ≡ length (held self.old).ids.names
            → held self.new ≡ with_new name.now [] (asked (held self.old))) }
        ensures late { (result ≡ Err FileStop.Failed) ↔ IsLate (held self.old) }
        ensures failed { result ≡ Err FileStop.Failed → held self.new ≡ after_file_fault (held self.old) }
        ensures no_memory { result ≡ Err FileStop.NoMemory → held self.new ≡ asked (held self.old) }
    {
        let _name = name.as_slice();
        let late = self.room.calls <= self.calls;
        self.calls = one_more(self.calls);
        if late {
            self.ids.count_own();
            return Err(FileStop::Failed);
        }
        match self.ids.find(name) {
            Some(i) => return Ok(FileId { n: i as u64 }),
            None => {}
        }
        let Ok(own) = Name::from_slice(self.alloc, name.as_slice()) else {
            return Err(FileStop::NoMemory);
        };
        match self.add(own, &[]) {
            Ok(id) => Ok(FileId { n: id as u64 }),
            Err(_) => Err(FileStop::NoMemory),
        }
    }
}

impl Store for MemStore {
    ghost use Rattle.std.specs.Prelude.{true, false};
    ghost use Rattle.std.proofs.lemmas.Bool.{false≢true};
    ghost use Rattle.mem_store.specs.Memory.{held};
    ghost use Rattle.mem_store.specs.Held.{file_of, view as view_of};
    ghost use Rattle.mem_store.specs.Held.{IsLate, IsKnown, asked, after_file_fault, with_new, after_write};
    ghost use Rattle.mem_store.specs.Held.{after_set_len};
    ghost use Rattle.mem_store.specs.Held.{Looks, Changes};
    ghost use Rattle.file_ids.proofs.ToldLemmas.{ids_stand};
    ghost use Rattle.std.specs.Prelude.{Some, None, IsErr, IsErrOf, OnErr};
    ghost use Rattle.outside.specs.Store.{Calls, Gives, SameIds};

    ghost tells_files = { true };

    ghost tells_images = { false };

    ghost view = { λ m. view_of (held m) };

    ghost leaves = { λ _ _. ⊥ };

    ghost past = { λ _ _. ⊥ };

    ghost ids_stand = { λ m. let h = held m in
        ids_stand h.ids h.calls true (file_of h.ids.names h.contents) m.sound };

    ghost reads_now = { λ told. absurd (false≢true told) };

    ghost counts_now = { λ told. absurd (false≢true told) };

    ghost only_now = { λ told. absurd (false≢true told) };

    fn file(&mut self, name: &Name) -> Result<FileId, FileStop>
        ensures given { IfOk result (λ id. Gives name.now id.n (view_of (held self.old)) (view_of (held self.new))) }
        ensures same { OnErr result (SameIds (view_of (held self.old)) (view_of (held self.new))) }
        ensures call { Calls true None (IsErrOf result FileStop.Failed) (λ _. ⊥) (view_of (held self.old))
            (view_of (held self.new)) }
        ensures cause { IsErrOf result FileStop.Failed ↔ IsLate (held self.old) }
        ensures known { OnOk result (IsKnown name.now (held self.old) → held self.new ≡ asked (held self.old)) }
        ensures new { OnOk result ((¬ IsKnown name.now (held self.old))
            → held self.new ≡ with_new name.now [] (asked (held self.old))) }
        ensures failed { IsErrOf result FileStop.Failed → held self.new ≡ after_file_fault (held self.old) }
        ensures no_memory { IsErrOf result FileStop.NoMemory → held self.new ≡ asked (held self.old) }
    {
        self.ask(name)
    }

    fn len(&mut self, id: FileId) -> Result<u64, Failed>
        requires given { 0 < length ((view_of (held self.old)).names id.n) }
        ensures len { IfOk result (λ n. n ≡ length
            ((view_of (held self.old)).files ((view_of (held self.old)).names id.n))) }
        ensures names { (view_of (held self.new)).names ≡ (view_of (held self.old)).names }
        ensures ids { (view_of (held self.new)).ids ≡ (view_of (held self.old)).ids }
        ensures call { Calls true (Some id.n) (IsErr result) (λ _. ⊥) (view_of (held self.old))
            (view_of (held self.new)) }
        ensures exact { Looks Op.Len id.n (held self.old) (held self.new) result }
    {
        self.len_of(id.n as usize)
    }

    fn read(&mut self, id: FileId, at: u64, out: &mut [u8]) -> Result<usize, Failed>
        requires given { 0 < length ((view_of (held self.old)).names id.n) }
        ensures count { IfOk result (λ n. n ≤ length out.old) }
        ensures bytes { IfOk result (λ n. take n out.new ≡ take (length out.old)
            (drop at ((view_of (held self.old)).files ((view_of (held self.old)).names id.n)))) }
        ensures names { (view_of (held self.new)).names ≡ (view_of (held self.old)).names }
        ensures ids { (view_of (held self.new)).ids ≡ (view_of (held self.old)).ids }
        ensures call { Calls true (Some id.n) (IsErr result) (λ _. ⊥) (view_of (held self.old))
            (view_of (held self.new)) }
        ensures exact { Looks Op.Read id.n (held self.old) (held self.new) result }
    {
        self.read_at(id.n as usize, at as usize, out)
    }

    fn write(&mut self, id: FileId, at: u64, bytes: &[u8]) -> Result<(), Failed>
        requires given { 0 < length ((view_of (held self.old)).names id.n) }
        requires fits { at + length bytes.now ≤ 2 ^ 49 }
        ensures written { OnOk result ((view_of (held self.new)).files
            ((view_of (held self.old)).names id.n) ≡ written at bytes.now
            ((view_of (held self.old)).files ((view_of (held self.old)).names id.n))) }
        ensures failed { OnErr result ((view_of (held self.new)).files ((view_of (held self.old)).names id.n) ≡
            ((view_of (held self.old)).files ((view_of (held self.old)).names id.n))) }
        ensures names { (view_of (held self.new)).names ≡ (view_of (held self.old)).names }
        ensures ids { (view_of (held self.new)).ids ≡ (view_of (held self.old)).ids }
        ensures call { Calls true (Some id.n) (IsErr result) (λ q. q ≡ (view_of (held self.old)).names id.n)
            (view_of (held self.old)) (view_of (held self.new)) }
        ensures exact { Changes Op.Write id.n (held self.old) (after_write id.n at bytes.now (held self.old))
            (held self.new) result }
    {
        self.write_at(id.n as usize, at, bytes)
    }

    fn set_len(&mut self, id: FileId, n: u64) -> Result<(), Failed>
        requires given { 0 < length ((view_of (held self.old)).names id.n) }
        ensures resized { OnOk result ((view_of (held self.new)).files
            ((view_of (held self.old)).names id.n) ≡ resized n
            ((view_of (held self.old)).files ((view_of (held self.old)).names id.n))) }
        ensures failed { OnErr result ((view_of (held self.new)).files ((view_of (held self.old)).names id.n) ≡
            ((view_of (held self.old)).files ((view_of (held self.old)).names id.n))) }
        ensures names { (view_of (held self.new)).names ≡ (view_of (held self.old)).names }
        ensures ids { (view_of (held self.new)).ids ≡ (view_of (held self.old)).ids }
        ensures call { Calls true (Some id.n) (IsErr result) (λ q. q ≡ (view_of (held self.old)).names id.n)
            (view_of (held self.old)) (view_of (held self.new)) }
        ensures exact { Changes Op.SetLen id.n (held self.old) (after_set_len id.n n (held self.old))
            (held self.new) result }
    {
        self.resize(id.n as usize, n)
    }

    fn sync(&mut self, id: FileId) -> Result<(), Failed>
        requires given { 0 < length ((view_of (held self.old)).names id.n) }
        ensures names { (view_of (held self.new)).names ≡ (view_of (held self.old)).names }
        ensures ids { (view_of (held self.new)).ids ≡ (view_of (held self.old)).ids }
        ensures call { Calls true (Some id.n) (IsErr result) (λ _. ⊥) (view_of (held self.old))
            (view_of (held self.new)) }
        ensures exact { Looks Op.Sync id.n (held self.old) (held self.new) result }
    {
        self.flush(id.n as usize)
    }
}
