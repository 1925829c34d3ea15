ghost use Rattle.std.specs.Prelude.{◌≡◌, ◌==◌, ◌&&◌, not, List, ℕ, Option, IfOk, Err, codes, []};
ghost use Rattle.std.specs.List.{list_all};
ghost use Rattle.dtype.specs.Types.{IsElemType};
ghost use Rattle.dtype.specs.Values.{CanHold};
ghost use Rattle.dtype.specs.declared.types.ElemType.{ElemType};
ghost use Rattle.dtype.specs.declared.types.Value.{Value};
ghost use Rattle.object_model.specs.Boxes.{all_le};
ghost use Rattle.object_model.specs.declared.command.Command.{Command};
ghost use Rattle.script.specs.Line.{is_chunk, is_maximum, IsFill, IsOption, IsShape, IsSizing, IsValue, Reads};

use crate::Command;
use crate::arguments::{take_path, take_sizes, take_type};
use crate::paths::Leads;
use crate::stop::LineStop;
use crate::values::take_value;
use crate::words::{is_word, next_word};
use dtype::{Dims, ElemType, Value, can_hold};
use std::alloc::Global;

/// The sizes behind the key, where it is next, and the rest.
fn take_option<'a>(
    alloc: Global,
    maximum: bool,
    key: &[u8],
    text: &'a [u8],
) -> Result<(Option<Dims>, &'a [u8]), LineStop>
    ensures found { IfOk result (λ x. IsOption maximum key.now text.now x.0 x.1.now) }
    ensures bad { result ≡ Err LineStop.BadLine → (d : Option (List ℕ)) → (more : List ℕ)
        → IsOption maximum key.now text.now d more → ⊥ }
{
    match next_word(text) {
        Some((word, after)) => {
            if !is_word(word, key) {
                return Ok((None, text));
            }
            let (sizes, rest) = take_sizes(alloc, maximum, after)?;
            Ok((Some(sizes), rest))
        }
        None => Ok((None, text)),
    }
}

/// Whether no size is 0.
fn has_no_zero(sizes: &[u64]) -> bool
    ensures { result ≡ list_all (λ n. not (n == 0)) sizes.now }
{
    sizes.iter().all(|n| *n != 0)
}

/// Whether there are as many chunk sizes as sizes, at least one, and none of them 0.
fn is_chunk(dims: &[u64], chunk: &Option<Dims>) -> bool
    ensures { result ≡ is_chunk dims.now chunk.now }
{
    match chunk {
        Some(chunk) => {
            let chunk = chunk.as_slice();
            dims.len() != 0 && chunk.len() == dims.len() && has_no_zero(chunk)
        }
        None => true,
    }
}

/// Whether there are as many maximum sizes as sizes, and none below its size.
fn all_le(dims: &[u64], max: &[u64]) -> bool
    ensures { result ≡ all_le dims.now max.now }
{
    if dims.len() != max.len() {
        return false;
    }
    for i in 0..dims.len() {
        if dims[i] > max[i] {
            return false;
        }
    }
    true
}

/// Whether maximum sizes stand only beside chunk sizes, and fit the sizes.
fn is_maximum(dims: &[u64], chunk: &Option<Dims>, max: &Option<Dims>) -> bool
    ensures { result ≡ is_maximum dims.now chunk.now max.now }
{
    match max {
        Some(max) => chunk.is_some() && all_le(dims, max.as_slice()),
        None => true,
    }
}

/// The sizes of a new dataset.
#[derive(Debug, Drop)]
struct Sizes {
    dims: Dims,
    chunk: Option<Dims>,
    max: Option<Dims>,
}

/// Sizes, chunk sizes and maximum sizes, and the rest.
fn take_sizing(alloc: Global, text: &[u8]) -> Result<(Sizes, &[u8]), LineStop>
    ensures found { IfOk result (λ x. IsSizing text.now x.0.dims x.0.chunk x.0.max x.1.now) }
    ensures bad { result ≡ Err LineStop.BadLine → (d : List ℕ) → (c m : Option (List ℕ)) → (more : List ℕ)
        → IsSizing text.now d c m more → ⊥ }
{
    let (dims, text) = take_sizes(alloc, false, text)?;
    let (chunk, text) = take_option(alloc, false, b"chunk", text)?;
    let (max, text) = take_option(alloc, true, b"max", text)?;
    Ok((Sizes { dims, chunk, max }, text))
}

/// Whether the sizes fit one another.
fn is_fitting(sizes: &Sizes) -> bool
    ensures { result ≡ (is_chunk sizes.now.dims sizes.now.chunk && is_maximum sizes.now.dims sizes.now.chunk
        sizes.now.max) }
{
    let dims = sizes.dims.as_slice();
    is_chunk(dims, &sizes.chunk) && is_maximum(dims, &sizes.chunk, &sizes.max)
}

/// Sizes, chunk sizes and maximum sizes that fit one another, and the rest.
fn take_shape(alloc: Global, text: &[u8]) -> Result<(Sizes, &[u8]), LineStop>
    ensures found { IfOk result (λ x. IsShape text.now x.0.dims x.0.chunk x.0.max x.1.now) }
    ensures bad { result ≡ Err LineStop.BadLine → (d : List ℕ) → (c m : Option (List ℕ)) → (more : List ℕ)
        → IsShape text.now d c m more → ⊥ }
{
    let (sizes, rest) = take_sizing(alloc, text)?;
    if !is_fitting(&sizes) {
        return Err(LineStop::BadLine);
    }
    Ok((sizes, rest))
}

/// A fill value that the type can hold, to the end of the text.
fn read_fill_value(alloc: Global, elem_type: &ElemType, text: &[u8]) -> Result<Value, LineStop>
    requires { IsElemType elem_type.now }
    ensures found { IfOk result (λ v. IsValue text.now v [] × CanHold elem_type.now v) }
    ensures bad { result ≡ Err LineStop.BadLine → (v : Value) → IsValue text.now v [] → CanHold elem_type.now v → ⊥ }
{
    let (value, rest) = take_value(alloc, text)?;
    if rest.len() != 0 {
        return Err(LineStop::BadLine);
    }
    if !can_hold(elem_type, &value) {
        return Err(LineStop::BadLine);
    }
    Ok(value)
}

/// The fill value to the end of the text, none where the text is at its end.
fn read_fill(alloc: Global, elem_type: &ElemType, text: &[u8]) -> Result<Option<Value>, LineStop>
    requires { IsElemType elem_type.now }
    ensures found { IfOk result (λ f. IsFill elem_type.now text.now f) }
    ensures bad { result ≡ Err LineStop.BadLine → (f : Option Value) → IsFill elem_type.now text.now f → ⊥ }
{
    if text.len() == 0 {
        return Ok(None);
    }
    match next_word(text) {
        Some((word, after)) => {
            if !is_word(word, b"fill") {
                return Err(LineStop::BadLine);
            }
            let value = read_fill_value(alloc, elem_type, after)?;
            Ok(Some(value))
        }
        None => Err(LineStop::BadLine),
    }
}

/// Path, type, sizes and what may follow them.
pub(crate) fn read_mkdata(alloc: Global, text: &[u8]) -> Result<Command, LineStop>
    ensures found { IfOk result (λ c. Reads (codes "mkdata") text.now c) }
    ensures bad { result ≡ Err LineStop.BadLine → (c : Command) → Reads (codes "mkdata") text.now c → ⊥ }
{
    let (path, text) = take_path(alloc, Leads::ToNewLink, text)?;
    let (elem, text) = take_type(text)?;
    let (sizes, text) = take_shape(alloc, text)?;
    let fill = read_fill(alloc, &elem, text)?;
    let Sizes { dims, chunk, max } = sizes;
    Ok(Command::Mkdata {
        path,
        elem,
        dims,
        chunk,
        max,
        fill,
    })
}
