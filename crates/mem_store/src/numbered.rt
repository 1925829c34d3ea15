ghost use Rattle.std.specs.Prelude.{◌≡◌, ◌↔◌, ◌⊎◌, ◌+◌, IsTrue, Any, if◌then◌else◌};
ghost use Rattle.file_ids.specs.Ids.{one_more};

use file_ids::one_more;

/// The calls of an object, those of them that fail, by number from 1, and the faults so far.
#[derive(Debug, Drop)]
pub struct Calls {
    pub made: u64,
    pub fails: Vec<u64>,
    pub faults: u64,
}

fn is_next(fails: &[u64], made: u64) -> bool
    ensures { IsTrue result ↔ Any (λ number. number ≡ made + 1) fails.now }
{
    fails
        .iter()
        .any(|number| *number > 0 && *number - 1 == made)
}

impl Calls {
    pub fn new(fails: Vec<u64>) -> Calls
        ensures made { result.made ≡ 0 }
        ensures fails { result.fails ≡ fails }
        ensures faults { result.faults ≡ 0 }
    {
        Calls {
            made: 0,
            fails,
            faults: 0,
        }
    }

    /// Counts a call, which fails where it is listed or where `stops`, and then a fault.
    pub fn strikes(&mut self, stops: bool) -> bool
        ensures cause { IsTrue result ↔ (Any (λ number. number ≡ self.old.made + 1) self.old.fails.items
            ⊎ IsTrue stops) }
        ensures made { self.new.made ≡ one_more self.old.made }
        ensures fails { self.new.fails ≡ self.old.fails }
        ensures faults { self.new.faults ≡ (if result then one_more self.old.faults else self.old.faults) }
    {
        let listed = is_next(self.fails.as_slice(), self.made);
        self.made = one_more(self.made);
        let fails = listed || stops;
        if fails {
            self.faults = one_more(self.faults);
        }
        fails
    }
}
