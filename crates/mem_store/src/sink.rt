ghost use Rattle.std.specs.Prelude.{◌≡◌, ◌⊎◌, ◌+◌, ◌-◌, ◌≤◌, ◌<◌, ◌++◌, ℕ, List, [], length, take, min, IsTrue, IfOk};
ghost use Rattle.std.specs.Prelude.{OnErr, true};
ghost use Rattle.outside.specs.Causes.{HasCause};
ghost use Rattle.mem_store.specs.Ports.{Filled, Numbered, IsNext, IsAtEnd, Counts};

use crate::numbered::Calls;
use h5_base::NoMemory;
use outside::{Failed, Sink};
use std::alloc::Global;
use std::marker::Model;

/// A sink in memory, with room for so many bytes and a list of its calls that fail. The memory for the room is
/// taken when it is made.
#[derive(Debug, Drop)]
pub struct VecSink {
    bytes: Vec<u8>,
    room: u64,
    calls: Calls,
}

impl Model for VecSink {
    ghost use Rattle.std.specs.Prelude.{◌≤◌, vec_capacity};
    ghost use Rattle.mem_store.specs.Ports.{Filled};

    ghost Value = { Filled };

    ghost view = { λ s. record {
      written = s.bytes.items;
      room = s.room;
      calls = record { made = s.calls.made; fails = s.calls.fails.items; faults = s.calls.faults };
    } };

    ghost invariant = { λ s. s.room ≤ vec_capacity s.bytes };
}

impl VecSink {
    /// A sink with room for so many bytes, of which the calls with these numbers fail, from 1.
    pub fn new(alloc: Global, room: u64, fails: Vec<u64>) -> Result<VecSink, NoMemory>
        ensures { IfOk result (λ s. s ≡ record {
          written = [];
          room = room;
          calls = record {
            made = 0;
            fails =
                fails.items;
            faults = 0;
          };
        }) }
    {
        match Vec::with_capacity(alloc, room as usize) {
            Ok(bytes) => Ok(VecSink {
                bytes,
                room,
                calls: Calls::new(fails),
            }),
            Err(_) => Err(NoMemory),
        }
    }

    /// The bytes that were written.
    pub fn as_slice(&self) -> &[u8]
        ensures { result.now ≡ self.now.written }
    {
        self.bytes.as_slice()
    }

    /// The faults so far.
    pub fn faults(&self) -> u64
        ensures { result ≡ self.now.calls.faults }
    {
        self.calls.faults
    }
}

impl Sink for VecSink {
    ghost tells = { true };

    ghost written = { λ s. s.written };

    ghost faults = { λ s. s.calls.faults };

    fn write(&mut self, bytes: &[u8]) -> Result<usize, Failed>
        ensures count { IfOk result (λ n. n ≤ length bytes.now) }
        ensures some { IfOk result (λ n. 0 < length bytes.now → 0 < n) }
        ensures added { IfOk result (λ n. self.new.written ≡ self.old.written ++ take n bytes.now) }
        ensures took { IfOk result (λ n. n ≡ min (length bytes.now) (self.old.room - length self.old.written)) }
        ensures err { OnErr result (self.new.written ≡ self.old.written) }
        ensures room { self.new.room ≡ self.old.room }
        ensures cause { HasCause self.old.calls.faults self.new.calls.faults result }
        ensures exact { Counts (IsNext self.old.calls ⊎ IsAtEnd self.old) self.old.calls self.new.calls result }
    {
        let full = self.room <= self.bytes.len() as u64;
        if self.calls.strikes(full) {
            return Err(Failed);
        }
        let n = bytes.len().min(self.room as usize - self.bytes.len());
        match self.bytes.extend_from_slice(&bytes[..n]) {
            Ok(()) => {}
            Err(_) => return Err(Failed),
        }
        Ok(n)
    }
}
