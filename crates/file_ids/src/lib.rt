//! The ids that a store gives to its files, and its counts of faults.
#![tactic(auto)]

ghost use Rattle.std.specs.Prelude.{◌≡◌, ◌<◌, [], IfOk, OnErr, MatchOption, length, slice_index, slice_index_or};
ghost use Rattle.file_ids.specs.Ids.{Ids, AreSound, no_ids, one_more, place_of, struck, struck_own, added};

use h5_base::{Name, NoMemory};
use std::alloc::Global;
use std::marker::Model;

/// Files by name, each with an id, which counts up from 0 in the order in which they are added, and with a count
/// of its faults; beside them the count of faults of asking for an id. A count stands still at 2^64 - 1.
#[derive(Drop)]
pub struct FileIds {
    names: Vec<Name>,
    faults: Vec<u64>,
    own: u64,
}

impl Model for FileIds {
    ghost use Rattle.file_ids.specs.Ids.{Ids, AreSound};

    ghost Value = { Ids };

    ghost view = { λ t. record { names = t.names.items; faults = t.faults.items; own = t.own } };

    ghost invariant = { λ t. AreSound (record { names = t.names.items; faults = t.faults.items; own = t.own }) };
}

/// One more, where the type has room.
pub fn one_more(count: u64) -> u64
    ensures { result ≡ one_more count }
{
    count.saturating_add(1)
}

fn place(names: &[Name], name: &Name) -> Option<usize>
    ensures { MatchOption result (place_of name.now names.now ≡ length names.now)
        (λ i. (i < length names.now) × (place_of name.now names.now ≡ i)) }
{
    for (i, other) in names.iter().enumerate() {
        if other.as_slice() == name.as_slice() {
            return Some(i);
        }
    }
    None
}

impl FileIds {
    /// No files yet. It takes no memory.
    pub fn new(alloc: Global) -> FileIds
        ensures empty { result ≡ no_ids }
        ensures sound { AreSound result }
    {
        FileIds {
            names: Vec::new(alloc),
            faults: Vec::new(alloc),
            own: 0,
        }
    }

    /// How many files have an id.
    pub fn len(&self) -> usize
        ensures { result ≡ length self.now.names }
    {
        self.names.len()
    }

    /// The id of a name, none where it has none yet.
    pub fn find(&self, name: &Name) -> Option<usize>
        ensures place { MatchOption result (place_of name.now self.now.names ≡ length self.now.names)
            (λ i. (i < length self.now.names) × (place_of name.now self.now.names ≡ i)) }
        ensures some { 0 < length name.now }
        ensures sound { AreSound self.now }
    {
        let _text = name.as_slice();
        place(self.names.as_slice(), name)
    }

    /// The name of an id.
    pub fn name(&self, id: usize) -> &Name
        requires { id < length self.now.names }
        ensures { result.now ≡ slice_index_or self.now.names id [] }
    {
        &self.names[id]
    }

    /// How many calls on an id have failed.
    pub fn faults(&self, id: usize) -> u64
        requires { id < length self.now.names }
        ensures { result ≡ slice_index self.now.faults id }
    {
        self.faults[id]
    }

    /// How often asking for an id has failed.
    pub fn own_faults(&self) -> u64
        ensures { result ≡ self.now.own }
    {
        self.own
    }

    /// A new id, for a name that has none yet.
    pub fn add(&mut self, name: Name) -> Result<usize, NoMemory>
        requires { place_of name self.old.names ≡ length self.old.names }
        ensures id { IfOk result (λ id. id ≡ length self.old.names) }
        ensures ok { IfOk result (λ id. self.new ≡ added name self.old) }
        ensures err { OnErr result (self.new ≡ self.old) }
        ensures sound { AreSound self.new }
    {
        let id = self.names.len();
        let _text = name.as_slice();
        match self.faults.reserve(1) {
            Ok(()) => {}
            Err(_) => return Err(NoMemory),
        }
        match self.names.push(name) {
            Ok(()) => {}
            Err(_) => return Err(NoMemory),
        }
        match self.faults.push(0) {
            Ok(()) => {}
            Err(_) => unreachable!(),
        }
        Ok(id)
    }

    /// Counts a fault of a call on this id.
    pub fn count_fault(&mut self, id: usize)
        requires { id < length self.old.names }
        ensures struck { self.new ≡ struck id self.old }
        ensures sound { AreSound self.new }
    {
        self.faults[id] = one_more(self.faults[id]);
    }

    /// Counts a fault of asking for an id.
    pub fn count_own(&mut self)
        ensures struck { self.new ≡ struck_own self.old }
        ensures sound { AreSound self.new }
    {
        self.own = one_more(self.own);
    }
}
