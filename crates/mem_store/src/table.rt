ghost use Rattle.std.specs.Prelude.{◌≡◌, ◌+◌, ◌-◌, ◌<◌, ◌≤◌, ◌^◌, ◌∷◌, ◌++◌, max, ℕ, List, [], length, take, drop, sum};
ghost use Rattle.std.specs.Prelude.{slice_set, slice_index, slice_index_or, IfOk, OnOk, vec_capacity};
ghost use Rattle.std.specs.List.{sum_by};
ghost use Rattle.outside.specs.Files.{written, resized};
ghost use Rattle.mem_store.specs.Table.{lens_of, tallies_of, contents_of, made, tallied, no_calls};

use crate::arena::{overwrite, refit};
use h5_base::NoMemory;
use std::alloc::Global;

/// The kinds of calls on a file.
#[derive(Clone, Copy, Debug, PartialEq, Eq)]
pub enum Op {
    Len,
    Read,
    Write,
    SetLen,
    Sync,
}

/// How many calls of each kind were made on a file. A count stands still at the end of its type.
#[derive(Clone, Copy, Debug, PartialEq, Eq)]
pub struct Tally {
    pub len: u64,
    pub read: u64,
    pub write: u64,
    pub set_len: u64,
    pub sync: u64,
}

/// A file: its length in bytes and its calls.
#[derive(Drop)]
pub struct Entry {
    pub len: usize,
    pub made: Tally,
}

/// Files by id, and their bytes one after another.
#[derive(Drop)]
pub struct Table {
    pub entries: Vec<Entry>,
    pub bytes: Vec<u8>,
    ghost full: { sum (lens_of entries.items) ≡ length bytes.items },
}

fn sum_of(entries: &[Entry]) -> usize
    requires { sum (lens_of entries.now) < 2 ^ 64 }
    ensures { result ≡ sum (lens_of entries.now) }
{
    entries.iter().map(|e| e.len).sum()
}

#[tactic(auto, using(crate::proofs::TableLemmas::table_steps))]
impl Table {
    /// No files yet, with memory for so many bytes.
    pub fn new(alloc: Global, room: usize) -> Result<Table, NoMemory>
        ensures entries { IfOk result (λ t. t.entries.items ≡ []) }
        ensures bytes { IfOk result (λ t. t.bytes.items ≡ []) }
        ensures room { IfOk result (λ t. room ≤ vec_capacity t.bytes) }
    {
        let Ok(bytes) = Vec::with_capacity(alloc, room) else {
            return Err(NoMemory);
        };
        Ok(Table {
            entries: Vec::new(alloc),
            bytes,
        })
    }

    // Where the bytes of a file begin.
    fn start(&self, i: usize) -> usize
        requires { i < length self.now.entries.items }
        ensures start { result ≡ sum (take i (lens_of self.now.entries.items)) }
        ensures within { result + slice_index (lens_of self.now.entries.items) i ≤ length self.now.bytes.items }
        ensures full { sum (lens_of self.now.entries.items) ≡ length self.now.bytes.items }
    {
        sum_of(&self.entries[..i])
    }

    /// The bytes of a file.
    pub fn bytes_at(&self, i: usize) -> &[u8]
        requires { i < length self.now.entries.items }
        ensures { result.now ≡ slice_index_or (contents_of self.now.entries.items self.now.bytes.items) i [] }
    {
        let start = self.start(i);
        &self.bytes[start..start + self.entries[i].len]
    }

    /// Takes memory for one file more, of so many bytes.
    pub fn reserve(&mut self, n: usize) -> Result<(), NoMemory>
        ensures entries { self.new.entries.items ≡ self.old.entries.items }
        ensures bytes { self.new.bytes.items ≡ self.old.bytes.items }
        ensures place { OnOk result (length self.new.entries.items < vec_capacity self.new.entries) }
        ensures room { OnOk result (length self.new.bytes.items + n ≤ vec_capacity self.new.bytes) }
        ensures capacity { vec_capacity self.old.bytes ≤ vec_capacity self.new.bytes }
    {
        if self.entries.reserve(1).is_err() || self.bytes.reserve(n).is_err() {
            return Err(NoMemory);
        }
        Ok(())
    }

    /// One file more, with these bytes. It takes no memory.
    pub fn add(&mut self, bytes: &[u8])
        requires place { length self.old.entries.items < vec_capacity self.old.entries }
        requires room { length self.old.bytes.items + length bytes.now ≤ vec_capacity self.old.bytes }
        ensures tallies { tallies_of self.new.entries.items ≡ tallies_of self.old.entries.items ++ no_calls ∷ [] }
        ensures contents { contents_of self.new.entries.items self.new.bytes.items
            ≡ contents_of self.old.entries.items self.old.bytes.items ++ bytes.now ∷ [] }
        ensures count { length self.new.entries.items ≡ length self.old.entries.items + 1 }
        ensures capacity { vec_capacity self.old.bytes ≤ vec_capacity self.new.bytes }
    {
        let entry = Entry {
            len: bytes.len(),
            made: Tally::new(),
        };
        let _ = self.bytes.extend_from_slice(bytes);
        let _ = self.entries.push(entry);
    }

    /// Gives a file this length: cut, or with zeros behind.
    pub fn set_len(&mut self, i: usize, n: usize)
        requires within { i < length self.old.entries.items }
        requires room { length self.old.bytes.items - slice_index
            (lens_of self.old.entries.items) i + n ≤ vec_capacity self.old.bytes }
        ensures count { length self.new.entries.items ≡ length self.old.entries.items }
        ensures tallies { tallies_of self.new.entries.items ≡ tallies_of self.old.entries.items }
        ensures contents { contents_of self.new.entries.items self.new.bytes.items
            ≡ slice_set (contents_of self.old.entries.items self.old.bytes.items) i
            (resized n (slice_index_or (contents_of self.old.entries.items self.old.bytes.items) i [])) }
        ensures capacity { vec_capacity self.old.bytes ≤ vec_capacity self.new.bytes }
    {
        let start = self.start(i);
        let len = self.entries[i].len;
        refit(&mut self.bytes, start, len, n);
        self.entries[i].len = n;
    }

    /// Writes a piece into a file, with zeros up to it where the file is shorter.
    pub fn write(&mut self, i: usize, at: usize, piece: &[u8])
        requires within { i < length self.old.entries.items }
        requires end { at + length piece.now < 2 ^ 64 }
        requires room { length self.old.bytes.items - slice_index (lens_of self.old.entries.items) i + max
            (slice_index (lens_of self.old.entries.items) i) (at + length piece.now) ≤ vec_capacity self.old.bytes }
        ensures count { length self.new.entries.items ≡ length self.old.entries.items }
        ensures tallies { tallies_of self.new.entries.items ≡ tallies_of self.old.entries.items }
        ensures contents { contents_of self.new.entries.items self.new.bytes.items
            ≡ slice_set (contents_of self.old.entries.items self.old.bytes.items) i
            (written at piece.now (slice_index_or (contents_of self.old.entries.items self.old.bytes.items) i [])) }
        ensures capacity { vec_capacity self.old.bytes ≤ vec_capacity self.new.bytes }
    {
        let start = self.start(i);
        let len = self.entries[i].len;
        overwrite(&mut self.bytes, start, len, at, piece);
        self.entries[i].len = len.max(at + piece.len());
    }

    /// Counts a call on a file.
    pub fn count_call(&mut self, i: usize, op: Op)
        requires { i < length self.old.entries.items }
        ensures count { length self.new.entries.items ≡ length self.old.entries.items }
        ensures lens { lens_of self.new.entries.items ≡ lens_of self.old.entries.items }
        ensures tallies { tallies_of self.new.entries.items ≡ slice_set (tallies_of self.old.entries.items) i
            (tallied op (slice_index_or (tallies_of self.old.entries.items) i no_calls)) }
        ensures bytes { self.new.bytes ≡ self.old.bytes }
    {
        self.entries[i].made = self.entries[i].made.with(op);
    }

    /// The calls on a file so far.
    pub fn tally(&self, i: usize) -> Tally
        requires { i < length self.now.entries.items }
        ensures { result ≡ slice_index_or (tallies_of self.now.entries.items) i no_calls }
    {
        self.entries[i].made
    }

    /// The length of a file.
    pub fn len_at(&self, i: usize) -> usize
        requires { i < length self.now.entries.items }
        ensures len { result ≡ length (slice_index_or (contents_of self.now.entries.items self.now.bytes.items) i []) }
        ensures entry { result ≡ slice_index (lens_of self.now.entries.items) i }
        ensures within { result ≤ length self.now.bytes.items }
    {
        let start = self.start(i);
        self.entries[i].len
    }

    /// The files' lengths together.
    pub fn total(&self) -> usize
        ensures sum { result ≡ sum_by length (contents_of self.now.entries.items self.now.bytes.items) }
        ensures all { result ≡ length self.now.bytes.items }
    {
        self.bytes.len()
    }
}
