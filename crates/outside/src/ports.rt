ghost use Rattle.std.specs.Prelude.{◌≡◌, ◌++◌, ◌<◌, ◌≤◌, ℕ, ℤ, Bool, List, [], length, take, drop, IsTrue, IfOk, OnErr};
ghost use Rattle.outside.specs.Causes.{HasCause};
ghost use Rattle.outside.specs.Ports.{next_moment, later_moments};

use crate::Failed;

/// Where the bytes of a script come from.
pub trait Source {
    /// It tells the bytes that it has left.
    ghost tells: { Bool };

    /// The bytes that are left, where they are told.
    ghost left: { Self → List ℕ };

    /// How many of its calls have failed.
    ghost faults: { Self → ℕ };

    /// Gives the next bytes, at most as many as `out` has, and their count. 0 for an `out` that isn't empty is
    /// the end. After `Failed` nothing was taken.
    fn read(&mut self, out: &mut [u8]) -> Result<usize, Failed>
        ensures count { IfOk result (λ n. n ≤ length out.old) }
        ensures given { IsTrue tells → IfOk result (λ n. take n out.new ≡ take n (left self.old)) }
        ensures taken { IsTrue tells → IfOk result (λ n. left self.new ≡ drop n (left self.old)) }
        ensures had { IsTrue tells → IfOk result (λ n. n ≤ length (left self.old)) }
        ensures end { IsTrue tells → IfOk result (λ n. n ≡ 0 → 0 < length out.old → left self.old ≡ []) }
        ensures err { IsTrue tells → OnErr result (left self.new ≡ left self.old) }
        ensures cause { HasCause (faults self.old) (faults self.new) result };
}

/// Where text goes.
pub trait Sink {
    /// It tells the bytes that were written to it.
    ghost tells: { Bool };

    /// The bytes that were written so far, where they are told.
    ghost written: { Self → List ℕ };

    /// How many of its calls have failed.
    ghost faults: { Self → ℕ };

    /// Takes the first bytes of the piece, at least one where there is one, and tells how many. After `Failed`
    /// nothing was taken.
    fn write(&mut self, bytes: &[u8]) -> Result<usize, Failed>
        ensures count { IfOk result (λ n. n ≤ length bytes.now) }
        ensures some { IfOk result (λ n. 0 < length bytes.now → 0 < n) }
        ensures added { IsTrue tells → IfOk result (λ n. written self.new ≡ written self.old ++ take n bytes.now) }
        ensures err { IsTrue tells → OnErr result (written self.new ≡ written self.old) }
        ensures cause { HasCause (faults self.old) (faults self.new) result };
}

/// Where the time of a commit comes from.
pub trait Clock {
    /// It tells the moments that its coming calls answer.
    ghost tells: { Bool };

    /// These moments, where they are told: the last one repeats, and none at all is 0.
    ghost coming: { Self → List ℤ };

    /// The seconds since 1970-01-01 00:00:00 UTC. There is no fault.
    fn now(&mut self) -> i64
        ensures moment { IsTrue tells → result ≡ next_moment (coming self.old) }
        ensures later { IsTrue tells → coming self.new ≡ later_moments (coming self.old) };
}
