ghost use Rattle.std.specs.Prelude.{◌≡◌, List, ℤ, true};
ghost use Rattle.outside.specs.Ports.{next_moment, later_moments};

use outside::Clock;
use std::marker::Model;

/// A clock that tells the numbers of a list, of which the last repeats, and 0 over an empty list.
#[derive(Debug, Drop)]
pub struct ListClock {
    secs: Vec<i64>,
    at: usize,
}

impl Model for ListClock {
    ghost use Rattle.std.specs.Prelude.{List, ℤ, drop, length, ◌≤◌};

    ghost Value = { List ℤ };

    ghost view = { λ c. drop c.at c.secs.items };

    ghost invariant = { λ c. c.at ≤ length c.secs.items };
}

impl ListClock {
    /// A clock that tells these seconds since 1970-01-01 00:00:00 UTC.
    pub fn new(secs: Vec<i64>) -> ListClock
        ensures { result ≡ secs.items }
    {
        ListClock { secs, at: 0 }
    }
}

impl Clock for ListClock {
    ghost tells = { true };

    ghost coming = { λ c. c };

    fn now(&mut self) -> i64 {
        let left = self.secs.len() - self.at;
        if left == 0 {
            return 0;
        }
        let moment = self.secs[self.at];
        if left > 1 {
            self.at += 1;
        }
        moment
    }
}
