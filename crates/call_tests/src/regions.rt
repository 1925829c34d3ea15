// A space of two regions in memory.
ghost use Rattle.std.specs.Prelude.{◌≡◌, ◌≤◌};
ghost use Rattle.call_tests.specs.Regions.{is_high, region_at};

use h5_base::{Comment, Extent, MemClass, NoMemory, Region};
use outside::{CommitAnswer, CommitStop, Failed, Kept, Space, WriteStop};
use std::alloc::Global;

/// A space of two regions, of which it keeps only the ends: it tells nothing of its bytes, and each reads as 0.
#[derive(Drop)]
pub struct TwoRegions {
    low: u64,
    high: u64,
    prepared: Vec<Extent>,
    ghost lower: { low ≤ 1000 },
    ghost above: { 1048576 ≤ high },
    ghost below: { high ≤ 1048640 },
}

impl TwoRegions {
    /// The first region has 96 bytes, and the second none.
    pub fn new(alloc: Global) -> TwoRegions {
        TwoRegions {
            low: 96,
            high: 1_048_576,
            prepared: Vec::new(alloc),
        }
    }
}

// Whether the region of a class is the second.
fn is_high(class: MemClass) -> bool
    ensures { result ≡ is_high class }
{
    match class {
        MemClass::Raw | MemClass::GlobalHeap => true,
        _ => false,
    }
}

impl Kept for TwoRegions {
    ghost use Rattle.std.proofs.Common.{◌∙◌, refl};
    ghost use Rattle.call_tests.specs.Regions.{told};

    ghost Alike = { λ a b. told a.low a.high a.prepared.items ≡ told b.low b.high b.prepared.items };

    ghost reflexive = { λ a. refl };

    ghost transitive = { λ a b c first second. first ∙ second };
}

impl Space for TwoRegions {
    ghost use Rattle.std.specs.Prelude.{false};
    ghost use Rattle.std.proofs.Common.{arith, refl};
    ghost use Rattle.std.proofs.lemmas.Bool.{false≢true};
    ghost use Rattle.call_tests.specs.Regions.{told};
    ghost use Rattle.call_tests.specs.TwoRegions.{is_sound};

    ghost tells = { false };

    ghost tells_stops = { false };

    ghost view = { λ s. told s.low s.high s.prepared.items };

    ghost Stands = { λ _. Unit {0} };

    ghost faults = { λ _ _. 0 };

    ghost copy_faults = { λ _ _. 0 };

    ghost Rests = { λ _. Unit {0} };

    ghost moment = { λ _. 0 };

    ghost GoesOn = { λ _ _. Unit {0} };

    ghost Readied = { λ a b. told b.low b.high b.prepared.items ≡ told a.low a.high b.prepared.items };

    ghost Edited = { λ _ _. Unit {0} };

    ghost Steady = { λ _. Unit {0} };

    ghost Leaves = { λ _ _ _. ⊥ };

    fn read(&mut self, _: u64, out: &mut [u8]) -> Result<(), Failed> {
        out.fill(0);
        Ok(())
    }

    fn write(&mut self, _: u64, _: &[u8]) -> Result<(), WriteStop> {
        Ok(())
    }

    fn raise(&mut self, class: MemClass, end: u64) -> Result<(), WriteStop> {
        if is_high(class) {
            self.high = end;
        } else {
            self.low = end;
        }
        Ok(())
    }

    fn prepare(&mut self, ranges: &Vec<Extent>) -> Result<(), NoMemory> {
        match ranges.clone() {
            Ok(copy) => {
                self.prepared = copy;
                Ok(())
            }
            Err(_) => Err(NoMemory),
        }
    }

    fn settle(&mut self) -> Result<(), WriteStop> {
        Ok(())
    }

    fn region(&self, class: MemClass) -> Region {
        if is_high(class) {
            Region {
                start: 1_048_576,
                limit: 1_048_640,
            }
        } else {
            Region {
                start: 0,
                limit: 1000,
            }
        }
    }

    fn end(&self, class: MemClass) -> u64 {
        if is_high(class) { self.high } else { self.low }
    }

    fn writable(&self) -> bool {
        true
    }

    fn has_onion(&self) -> bool {
        false
    }

    fn room_left(&self, _: &Vec<Extent>) -> bool {
        true
    }

    fn commit_refusal(&self, _: &Vec<Extent>, _: &Comment, _: i64) -> Option<CommitAnswer> {
        Some(CommitAnswer::NoOnion)
    }

    fn commit(&mut self, _: &Comment, _: i64) -> Result<CommitAnswer, CommitStop> {
        Ok(CommitAnswer::NoOnion)
    }

    ghost alike = { λ a b h. h };

    ghost goes_alike = { λ a b h. tt };

    ghost goes_further = { λ a b c first second. tt };

    ghost goes_counts = { λ a b h k. omega arith };

    ghost goes_copy = { λ a b h k. omega arith };

    ghost goes_moment = { λ a b h. omega arith };

    ghost alike_copy = { λ a b h. refl };

    ghost alike_stands = { λ a b h stands. stands };

    ghost alike_rests = { λ a b h rests. rests };

    ghost alike_steady = { λ told. absurd (false≢true told) };

    ghost alike_stops = { λ told. absurd (false≢true told) };

    ghost readied_view = { λ a b h. h };

    ghost readied_stands = { λ a b h stands. stands };

    ghost readied_counts = { λ a b h. refl };

    ghost readied_copy = { λ a b h. refl };

    ghost readied_rests = { λ a b h rests. rests };

    ghost readied_moment = { λ a b h. refl };

    ghost readied_steady = { λ told. absurd (false≢true told) };

    ghost readied_past = { λ told. absurd (false≢true told) };

    ghost readied_itself = { λ a. refl };

    ghost edited_readied = { λ a b h. tt };

    ghost edited_further = { λ a b c steady first second. tt };

    ghost edited_kind = { λ a b h. record {
      regions = refl;
      writable = refl;
      revisions = (λ none. none, λ none. none);
    } };

    ghost edited_goes = { λ a b h. tt };

    ghost edited_stops = { λ told. absurd (false≢true told) };

    ghost tells_all = { λ told. absurd (false≢true told) };

    ghost sound = { λ a _. is_sound a.low a.high a.prepared.items a.lower a.above a.below };
}
