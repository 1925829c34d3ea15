ghost use Rattle.std.specs.Prelude.{◌≡◌, List, ℕ, IfOk, Err};
ghost use Rattle.dtype.specs.Types.{IsElemType};
ghost use Rattle.dtype.specs.declared.types.ElemType.{ElemType};
ghost use Rattle.script.specs.Words.{Next};
ghost use Rattle.script.specs.Numbers.{IsSizes};
ghost use Rattle.script.specs.Types.{IsType};
ghost use Rattle.script.specs.Line.{IsBox, IsPathThat};

use crate::Path;
use crate::numbers::read_sizes;
use crate::paths::{Leads, read_path_that};
use crate::stop::LineStop;
use crate::types::read_type;
use crate::words::next_word;
use dtype::{Dims, ElemType};
use std::alloc::Global;

/// The path of the next word, and the rest.
pub(crate) fn take_path(alloc: Global, leads: Leads, text: &[u8]) -> Result<(Path, &[u8]), LineStop>
    ensures found { IfOk result (λ x. Next (IsPathThat leads) text.now x.0 x.1.now) }
    ensures bad { result ≡ Err LineStop.BadLine → (p : List (List ℕ)) → (more : List ℕ)
        → Next (IsPathThat leads) text.now p more → ⊥ }
{
    match next_word(text) {
        Some((word, rest)) => Ok((read_path_that(alloc, leads, word)?, rest)),
        None => Err(LineStop::BadLine),
    }
}

/// The sizes of the next word, and the rest.
pub(crate) fn take_sizes(
    alloc: Global,
    maximum: bool,
    text: &[u8],
) -> Result<(Dims, &[u8]), LineStop>
    ensures found { IfOk result (λ x. Next (IsSizes maximum) text.now x.0 x.1.now) }
    ensures bad { result ≡ Err LineStop.BadLine → (ns : List ℕ) → (more : List ℕ)
        → Next (IsSizes maximum) text.now ns more → ⊥ }
{
    match next_word(text) {
        Some((word, rest)) => Ok((read_sizes(alloc, maximum, word)?, rest)),
        None => Err(LineStop::BadLine),
    }
}

/// The type of the next word, and the rest.
pub(crate) fn take_type(text: &[u8]) -> Result<(ElemType, &[u8]), LineStop>
    ensures found { IfOk result (λ x. Next IsType text.now x.0 x.1.now) }
    ensures valid { IfOk result (λ x. IsElemType x.0) }
    ensures bad { result ≡ Err LineStop.BadLine → (t : ElemType) → (more : List ℕ) → Next IsType text.now t more → ⊥ }
{
    match next_word(text) {
        Some((word, rest)) => match read_type(word) {
            Some(elem_type) => Ok((elem_type, rest)),
            None => Err(LineStop::BadLine),
        },
        None => Err(LineStop::BadLine),
    }
}

/// A path, and the box of a dataset's elements that starts there.
#[derive(Debug, Drop)]
pub(crate) struct Place {
    pub path: Path,
    pub start: Dims,
    pub count: Dims,
}

/// The path and the box of the next three words, and the rest.
pub(crate) fn take_box(alloc: Global, text: &[u8]) -> Result<(Place, &[u8]), LineStop>
    ensures found { IfOk result (λ x. IsBox text.now x.0.path x.0.start x.0.count x.1.now) }
    ensures bad { result ≡ Err LineStop.BadLine → (p : List (List ℕ)) → (start count more : List ℕ)
        → IsBox text.now p start count more → ⊥ }
{
    let (path, text) = take_path(alloc, Leads::Anywhere, text)?;
    let (start, text) = take_sizes(alloc, false, text)?;
    let (count, rest) = take_sizes(alloc, false, text)?;
    Ok((Place { path, start, count }, rest))
}
