ghost use Rattle.std.specs.Prelude.{◌≡◌, ℕ, ◌+◌, ◌%◌, ◌^◌, ◌<◌, ◌≤◌, max, List, [], length};
ghost use Rattle.block_space.specs.Plans.{rounded};
ghost use Rattle.file_model.specs.Groups.{HasText};
ghost use Rattle.group_heap.specs.Greatest.{UsedByLast};

use crate::spelling::round_up;
use group_reader::text_at;

/// The used length of a segment whose greatest offset in use is `last`: the least multiple of 8, at least 8, behind the
/// text there and its NUL (HDF5 File Format Specification 3.0, III.D). It is 8 where no text stands there.
pub fn used_len(segment: &[u8], last: Option<u64>) -> u64
    requires small { length segment.now < 2 ^ 32 }
    ensures none { last ≡ None → result ≡ 8 }
    ensures some { (at : ℕ) (text : List ℕ) → last ≡ Some at → HasText segment.now at text
        → result ≡ max 8 (rounded (at + length text + 1)) }
    ensures whole { result % 8 ≡ 0 }
    ensures low { 8 ≤ result }
    ensures high { result ≤ length segment.now + 8 }
{
    let Some(at) = last else {
        return 8;
    };
    match text_at(segment, at) {
        Some(text) => round_up(at + text.len() as u64 + 1).max(8),
        None => 8,
    }
}

/// Of all texts at the offsets in use the one at the greatest ends last: where all of them have texts, it gives the
/// used length. It does nothing: its clause is the law.
pub fn is_used()
    ensures { UsedByLast }
{}

/// An offset at which the empty name stands: 0 where it stands there, else the NUL of the text at `at`. Key 0 of a
/// group's B-tree has to name a text before all names (HDF5 File Format Specification 3.0, III.A.1).
pub fn base_of(segment: &[u8], at: u64) -> u64
    ensures zero { HasText segment.now 0 [] → result ≡ 0 }
    ensures other { ¬ HasText segment.now 0 [] → (text : List ℕ) → HasText segment.now at text
        → result ≡ at + length text }
    ensures empty { (text : List ℕ) → HasText segment.now at text → HasText segment.now result [] }
{
    if !segment.is_empty() && segment[0] == 0 {
        return 0;
    }
    match text_at(segment, at) {
        Some(text) => at + text.len() as u64,
        None => 0,
    }
}
