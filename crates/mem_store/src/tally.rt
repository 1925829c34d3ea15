ghost use Rattle.std.specs.Prelude.{◌≡◌};
ghost use Rattle.mem_store.specs.Table.{made, tallied, no_calls};

use crate::table::{Op, Tally};
use file_ids::one_more;

impl Tally {
    /// No call yet.
    pub fn new() -> Tally
        ensures { result ≡ no_calls }
    {
        Tally {
            len: 0,
            read: 0,
            write: 0,
            set_len: 0,
            sync: 0,
        }
    }

    /// How many calls of this kind there were.
    pub fn of(self, op: Op) -> u64
        ensures { result ≡ made op self }
    {
        match op {
            Op::Len => self.len,
            Op::Read => self.read,
            Op::Write => self.write,
            Op::SetLen => self.set_len,
            Op::Sync => self.sync,
        }
    }

    /// The same with one more of this kind.
    pub fn with(self, op: Op) -> Tally
        ensures { result ≡ tallied op self }
    {
        let mut t = self;
        match op {
            Op::Len => t.len = one_more(t.len),
            Op::Read => t.read = one_more(t.read),
            Op::Write => t.write = one_more(t.write),
            Op::SetLen => t.set_len = one_more(t.set_len),
            Op::Sync => t.sync = one_more(t.sync),
        }
        t
    }
}
