ghost use Rattle.std.specs.Prelude.{◌≡◌, List, ℕ, IfOk, Err, true, false};
ghost use Rattle.std.specs.Option.{option_map};
ghost use Rattle.dtype.specs.declared.types.Value.{Value};
ghost use Rattle.script.specs.Words.{IsRun};
ghost use Rattle.script.specs.Line.{begins_quoted, next_quoted, IsValue};

use crate::numbers::read_i128;
use crate::stop::LineStop;
use crate::symbols::{Within, read_text};
use crate::words::{before_len, next_word};
use dtype::Value;
use h5_base::Bytes;
use std::alloc::Global;

/// What stands between two double quotes behind a space, and the rest.
fn next_quoted(text: &[u8]) -> Option<(&[u8], &[u8])>
    ensures { option_map (λ x. (x.0.now, x.1.now)) result ≡ next_quoted text.now }
{
    match text {
        [b' ', b'"', text @ ..] => {
            let len = before_len(text, b'"');
            match &text[len..] {
                [_, more @ ..] => Some((&text[..len], more)),
                [] => None,
            }
        }
        _ => None,
    }
}

/// Whether a text in double quotes is next.
fn begins_quoted(text: &[u8]) -> bool
    ensures { result ≡ begins_quoted text.now }
{
    match text {
        [space, quote, ..] => *space == b' ' && *quote == b'"',
        _ => false,
    }
}

fn take_quoted(alloc: Global, text: &[u8]) -> Result<(Value, &[u8]), LineStop>
    requires { begins_quoted text.now ≡ true }
    ensures found { IfOk result (λ x. IsValue text.now x.0 x.1.now) }
    ensures bad { result ≡ Err LineStop.BadLine → (v : Value) → (more : List ℕ) → IsValue text.now v more → ⊥ }
{
    match next_quoted(text) {
        Some((inside, more)) => {
            let bytes = read_text(alloc, Within::Quotes, inside)?;
            Ok((Value::Text(Bytes::from_vec(bytes)), more))
        }
        None => Err(LineStop::BadLine),
    }
}

fn take_integer(text: &[u8]) -> Result<(Value, &[u8]), LineStop>
    requires { begins_quoted text.now ≡ false }
    ensures found { IfOk result (λ x. IsValue text.now x.0 x.1.now) }
    ensures bad { result ≡ Err LineStop.BadLine → (v : Value) → (more : List ℕ) → IsValue text.now v more → ⊥ }
{
    match next_word(text) {
        Some((word, more)) => match read_i128(word) {
            Some(number) => Ok((Value::Num(number), more)),
            None => Err(LineStop::BadLine),
        },
        None => Err(LineStop::BadLine),
    }
}

/// The value that is next, and the rest.
pub(crate) fn take_value(alloc: Global, text: &[u8]) -> Result<(Value, &[u8]), LineStop>
    ensures found { IfOk result (λ x. IsValue text.now x.0 x.1.now) }
    ensures bad { result ≡ Err LineStop.BadLine → (v : Value) → (more : List ℕ) → IsValue text.now v more → ⊥ }
{
    if begins_quoted(text) {
        take_quoted(alloc, text)
    } else {
        take_integer(text)
    }
}

/// The values to the end of the text.
pub(crate) fn read_values(alloc: Global, text: &[u8]) -> Result<Vec<Value>, LineStop>
    ensures found { IfOk result (λ v. IsRun IsValue text.now v.items) }
    ensures bad { result ≡ Err LineStop.BadLine → (vs : List Value) → IsRun IsValue text.now vs → ⊥ }
{
    let mut values = Vec::new(alloc);
    let mut rest = text;
    while rest.len() > 0 {
        let (value, more) = take_value(alloc, rest)?;
        values.push(value)?;
        rest = more;
    }
    Ok(values)
}
