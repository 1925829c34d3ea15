ghost use Rattle.std.specs.Prelude.{◌≡◌, ◌<◌, ◌^◌, List, ℕ, IfOk, Err};
ghost use Rattle.std.specs.Option.{SomeIff};
ghost use Rattle.std.specs.List.{AllZip};
ghost use Rattle.std.specs.Str.Parse.{digits_value, signed_digits_value};
ghost use Rattle.script.specs.Words.{split_on};
ghost use Rattle.script.specs.Numbers.{is_bare, IsU64, IsI128, IsSize, IsSizes};

use crate::stop::LineStop;
use crate::words::split;
use dtype::Dims;
use std::alloc::Global;

/// Whether there is no `+`, no zero before other digits, and no `-` before a zero.
fn is_bare(word: &[u8]) -> bool
    ensures { result ≡ is_bare word.now }
{
    match word {
        [first, second, ..] => {
            *first != b'+' && *first != b'0' && !(*first == b'-' && *second == b'0')
        }
        [only] => *only != b'+',
        [] => true,
    }
}

/// The number of a word's digits.
pub(crate) fn read_u64(word: &[u8]) -> Option<u64>
    ensures { SomeIff result (IsU64 word.now) (digits_value 10 word.now) }
{
    if !is_bare(word) {
        return None;
    }
    match std::str::from_utf8(word) {
        Err(_) => None,
        Ok(text) => match text.parse::<u64>() {
            Ok(number) => Some(number),
            Err(_) => None,
        },
    }
}

/// The number of a word's digits, with `-` before a negative one.
pub(crate) fn read_i128(word: &[u8]) -> Option<i128>
    ensures { SomeIff result (IsI128 word.now) (signed_digits_value 10 word.now) }
{
    if !is_bare(word) {
        return None;
    }
    match std::str::from_utf8(word) {
        Err(_) => None,
        Ok(text) => match text.parse::<i128>() {
            Ok(number) => Some(number),
            Err(_) => None,
        },
    }
}

/// A size, where `maximum` also `*` for an unlimited one.
fn read_size(maximum: bool, word: &[u8]) -> Result<u64, LineStop>
    ensures found { IfOk result (λ n. IsSize maximum word.now n) }
    ensures bad { result ≡ Err LineStop.BadLine → (n : ℕ) → IsSize maximum word.now n → ⊥ }
{
    if maximum && word == b"*".as_slice() {
        return Ok(u64::MAX);
    }
    match read_u64(word) {
        Some(number) => Ok(number),
        None => Err(LineStop::BadLine),
    }
}

fn read_list(alloc: Global, maximum: bool, word: &[u8]) -> Result<Vec<u64>, LineStop>
    ensures found { IfOk result (λ v. AllZip (IsSize maximum) (split_on 44 word.now) v.items) }
    ensures bad { result ≡ Err LineStop.BadLine → (ns : List ℕ) → AllZip (IsSize maximum) (split_on 44 word.now) ns
        → ⊥ }
{
    let pieces = split(alloc, b',', word)?;
    let mut sizes = Vec::new(alloc);
    for piece in &pieces {
        let size = read_size(maximum, *piece)?;
        sizes.push(size)?;
    }
    Ok(sizes)
}

/// The sizes that the word spells.
pub(crate) fn read_sizes(alloc: Global, maximum: bool, word: &[u8]) -> Result<Dims, LineStop>
    ensures found { IfOk result (λ d. IsSizes maximum word.now d) }
    ensures bad { result ≡ Err LineStop.BadLine → (ns : List ℕ) → IsSizes maximum word.now ns → ⊥ }
{
    if word == b"-".as_slice() {
        return Ok(Dims::from_slice(alloc, &[])?);
    }
    let sizes = read_list(alloc, maximum, word)?;
    Ok(Dims::from_slice(alloc, &sizes)?)
}
