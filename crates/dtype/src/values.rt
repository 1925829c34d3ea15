ghost use Rattle.std.specs.Prelude.{◌≡◌, ◌↔◌, ◌+◌, ◌≤◌, IfOk, OnOk, IsTrue, length};
ghost use Rattle.std.specs.Fmt.{signed_decimal};
ghost use Rattle.dtype.specs.Types.{IsElemType, IsIntSize, size_of};
ghost use Rattle.dtype.specs.Values.{CanHold, HoldsNumber, canonical, encoding, least_fill, number_bytes, text_bytes};
ghost use Rattle.dtype.specs.Values.{value_of, value_text, width_of};

use crate::numbers::{decode_number, encode_number, holds_number};
use crate::texts::{encode_text, holds_text, quote, trim_padding};
use crate::{ElemType, Pad, Value, ValueStop};
use h5_base::{Bytes, NoMemory};
use std::alloc::Global;

/// Whether elements of this type can hold the value.
pub fn can_hold(elem_type: &ElemType, value: &Value) -> bool
    requires { IsElemType elem_type.now }
    ensures { IsTrue result ↔ CanHold elem_type.now value.now }
{
    match (*elem_type, value) {
        (ElemType::Int { size, signed, .. }, Value::Num(number)) => {
            holds_number(usize::from(size), signed, *number)
        }
        (ElemType::Text { size, pad }, Value::Text(text)) => {
            holds_text(size as usize, pad, text.as_slice())
        }
        _ => false,
    }
}

fn encode_int(
    alloc: Global,
    size: usize,
    signed: bool,
    big: bool,
    number: i128,
) -> Result<Bytes, ValueStop>
    requires { IsIntSize size }
    ensures bytes { IfOk result (λ b. b ≡ number_bytes big (width_of size) number) }
    ensures held { OnOk result (HoldsNumber signed size number) }
    ensures wrong { (result ≡ Err ValueStop.WrongValue) ↔ (¬ HoldsNumber signed size number) }
{
    if !holds_number(size, signed, number) {
        return Err(ValueStop::WrongValue);
    }
    match encode_number(alloc, size, signed, big, number) {
        Ok(bytes) => Ok(bytes),
        Err(NoMemory) => Err(ValueStop::NoMemory),
    }
}

fn encode_string(alloc: Global, size: usize, pad: Pad, text: &[u8]) -> Result<Bytes, ValueStop>
    ensures bytes { IfOk result (λ b. b ≡ text_bytes pad size text.now) }
    ensures held { OnOk result (length text.now + least_fill pad ≤ size) }
    ensures wrong { (result ≡ Err ValueStop.WrongValue) ↔ (¬ (length text.now + least_fill pad ≤ size)) }
{
    if !holds_text(size, pad, text) {
        return Err(ValueStop::WrongValue);
    }
    match encode_text(alloc, size, pad, text) {
        Ok(bytes) => Ok(bytes),
        Err(NoMemory) => Err(ValueStop::NoMemory),
    }
}

/// The bytes of an element that holds the value; `WrongValue` for a text where the type is an integer, a number where
/// it is a string, a number out of range, and a text of more than `size` bytes, `size` - 1 where it has to end with
/// NUL.
pub fn encode_value(alloc: Global, elem_type: &ElemType, value: &Value) -> Result<Bytes, ValueStop>
    requires { IsElemType elem_type.now }
    ensures bytes { IfOk result (λ b. b ≡ encoding elem_type.now value.now) }
    ensures size { IfOk result (λ b. length b ≡ size_of elem_type.now) }
    // The bytes hold the value again, but for padding at a text's own end.
    ensures read_again { IfOk result (λ b. value_of elem_type.now b ≡ canonical elem_type.now value.now) }
    ensures wrong { (result ≡ Err ValueStop.WrongValue) ↔ (¬ CanHold elem_type.now value.now) }
{
    match (*elem_type, value) {
        (ElemType::Int { size, signed, big }, Value::Num(number)) => {
            encode_int(alloc, usize::from(size), signed, big, *number)
        }
        (ElemType::Text { size, pad }, Value::Text(text)) => {
            encode_string(alloc, size as usize, pad, text.as_slice())
        }
        _ => Err(ValueStop::WrongValue),
    }
}

/// The decimal digits of a number, with `-` before a negative one.
fn print_number(alloc: Global, number: i128) -> Result<Bytes, NoMemory>
    ensures { IfOk result (λ b. b ≡ signed_decimal number) }
{
    match number.to_string(alloc) {
        Ok(text) => Ok(Bytes::from_vec(text.into_bytes())),
        Err(_) => Err(NoMemory),
    }
}

/// The value of an element as text: a decimal number with `-` before a negative one, or the text without its padding in
/// double quotes, where bytes from 0x20 to 0x7E other than `"` and `\` stand for themselves and others are `\xHH`.
pub fn print_value(alloc: Global, elem_type: &ElemType, elem: &[u8]) -> Result<Bytes, NoMemory>
    requires valid { IsElemType elem_type.now }
    requires whole { length elem.now ≡ size_of elem_type.now }
    ensures { IfOk result (λ b. b ≡ value_text (value_of elem_type.now elem.now)) }
{
    match *elem_type {
        ElemType::Int { signed, big, .. } => print_number(alloc, decode_number(signed, big, elem)),
        ElemType::Text { pad, .. } => quote(alloc, trim_padding(pad, elem)),
    }
}
