ghost use Rattle.std.specs.Prelude.{◌≡◌, ◌≤◌, ◌<◌, ℕ, List, [], length, take, drop, IsTrue, IfOk, OnErr, true};
ghost use Rattle.outside.specs.Causes.{HasCause};
ghost use Rattle.mem_store.specs.Ports.{Feed, Numbered, IsNext, Counts};

use crate::arena::copy_from;
use crate::numbered::Calls;
use h5_base::Bytes;
use outside::{Failed, Source};
use std::marker::Model;

/// A source of bytes in memory, with a list of its calls that fail.
#[derive(Debug, Drop)]
pub struct VecSource {
    bytes: Bytes,
    at: usize,
    calls: Calls,
}

impl Model for VecSource {
    ghost use Rattle.std.specs.Prelude.{◌≤◌, length, drop};
    ghost use Rattle.mem_store.specs.Ports.{Feed};

    ghost Value = { Feed };

    ghost view = { λ s. record {
      left = drop s.at s.bytes;
      calls = record { made = s.calls.made; fails = s.calls.fails.items; faults = s.calls.faults };
    } };

    ghost invariant = { λ s. s.at ≤ length s.bytes };
}

impl VecSource {
    /// A source of these bytes, of which the calls with these numbers fail, from 1.
    pub fn new(bytes: Bytes, fails: Vec<u64>) -> VecSource
        ensures { result ≡ record { left = bytes; calls = record { made = 0; fails = fails.items; faults = 0 } } }
    {
        VecSource {
            bytes,
            at: 0,
            calls: Calls::new(fails),
        }
    }

    /// The faults so far.
    pub fn faults(&self) -> u64
        ensures { result ≡ self.now.calls.faults }
    {
        self.calls.faults
    }
}

impl Source for VecSource {
    ghost tells = { true };

    ghost left = { λ s. s.left };

    ghost faults = { λ s. s.calls.faults };

    fn read(&mut self, out: &mut [u8]) -> Result<usize, Failed>
        ensures count { IfOk result (λ n. n ≤ length out.old) }
        ensures given { IfOk result (λ n. take n out.new ≡ take n self.old.left) }
        ensures taken { IfOk result (λ n. self.new.left ≡ drop n self.old.left) }
        ensures had { IfOk result (λ n. n ≤ length self.old.left) }
        ensures end { IfOk result (λ n. n ≡ 0 → 0 < length out.old → self.old.left ≡ []) }
        ensures err { OnErr result (self.new.left ≡ self.old.left) }
        ensures cause { HasCause self.old.calls.faults self.new.calls.faults result }
        ensures exact { Counts (IsNext self.old.calls) self.old.calls self.new.calls result }
    {
        if self.calls.strikes(false) {
            return Err(Failed);
        }
        let n = copy_from(self.bytes.as_slice(), self.at, out);
        self.at += n;
        Ok(n)
    }
}
