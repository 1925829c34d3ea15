ghost use Rattle.std.specs.Prelude.{◌<◌, ◌↔◌, List, IsTrue, MatchOption};
ghost use Rattle.outside.specs.Blocks.{Block, IsApart, IsOverlap};
ghost use Rattle.block_space.specs.Catalogue.{IsFirstFrom, IsLastBelow, Lists, RunsOver};

use std::collections::BTreeMap;

/// The last entry whose key is below an address.
fn last_below(catalogue: &BTreeMap<u64, u64>, at: u64) -> Option<(u64, u64)>
    ensures { IsLastBelow catalogue.now at result }
{
    match catalogue.range(..at).next_back() {
        Some((start, len)) => Some((*start, *len)),
        None => None,
    }
}

/// The first entry whose key is an address or behind it.
fn first_from(catalogue: &BTreeMap<u64, u64>, at: u64) -> Option<(u64, u64)>
    ensures { IsFirstFrom catalogue.now at result }
{
    match catalogue.range(at..).next() {
        Some((start, len)) => Some((*start, *len)),
        None => None,
    }
}

/// Whether one of the blocks begins below an address and holds it.
fn runs_over(catalogue: &BTreeMap<u64, u64>, at: u64) -> bool
    ensures { (met : List Block) → Lists catalogue.now met → IsTrue result ↔ RunsOver met at }
{
    match last_below(catalogue, at) {
        Some((start, len)) => at - start < len,
        None => false,
    }
}

/// The first address that a block of at least one byte shares with one of the blocks.
pub fn shared_address(catalogue: &BTreeMap<u64, u64>, start: u64, len: u64) -> Option<u64>
    requires { 0 < len }
    ensures { (met : List Block) → Lists catalogue.now met
        → MatchOption result (IsApart (record { start = start; len = len }) met)
        (IsOverlap met (record { start = start; len = len })) }
{
    if runs_over(catalogue, start) {
        return Some(start);
    }
    match first_from(catalogue, start) {
        Some((behind, _)) => {
            if behind - start < len {
                Some(behind)
            } else {
                None
            }
        }
        None => None,
    }
}
