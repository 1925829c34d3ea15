ghost use Rattle.std.specs.Prelude.{◌≡◌, ℕ, IfSome, IsNone};
ghost use Rattle.std.specs.Option.{option_map, SomeIff};
ghost use Rattle.dtype.specs.Types.{IsTextSize};
ghost use Rattle.dtype.specs.declared.types.ElemType.{ElemType};
ghost use Rattle.script.specs.Numbers.{IsNumber};
ghost use Rattle.script.specs.Types.{sign_of, order_of, wide_size, narrow_size, int_of, int_type, after_str, padding};
ghost use Rattle.script.specs.Types.{IsType};

use crate::numbers::read_u64;
use dtype::{ElemType, Pad};

fn sign_of(c: u8) -> Option<bool>
    ensures { result ≡ sign_of c }
{
    match c {
        b'i' => Some(true),
        b'u' => Some(false),
        _ => None,
    }
}

fn order_of(c: u8, d: u8) -> Option<bool>
    ensures { result ≡ order_of c d }
{
    match (c, d) {
        (b'l', b'e') => Some(false),
        (b'b', b'e') => Some(true),
        _ => None,
    }
}

fn narrow_size(c: u8) -> Option<u8>
    ensures { result ≡ narrow_size c }
{
    if c == b'8' { Some(1) } else { None }
}

fn wide_size(c: u8, d: u8) -> Option<u8>
    ensures { result ≡ wide_size c d }
{
    match (c, d) {
        (b'1', b'6') => Some(2),
        (b'3', b'2') => Some(4),
        (b'6', b'4') => Some(8),
        _ => None,
    }
}

/// The integer type of these parts, where each is there.
fn int_of(signed: Option<bool>, size: Option<u8>, big: Option<bool>) -> Option<ElemType>
    ensures { result ≡ int_of signed size big }
{
    match (signed, size, big) {
        (Some(signed), Some(size), Some(big)) => Some(ElemType::Int { size, signed, big }),
        _ => None,
    }
}

/// The integer type of a sign, bits and a byte order.
fn read_int(word: &[u8]) -> Option<ElemType>
    ensures { result ≡ int_type word.now }
{
    match word {
        [s, a, b, c] => int_of(sign_of(*s), narrow_size(*a), order_of(*b, *c)),
        [s, a, b, c, d] => int_of(sign_of(*s), wide_size(*a, *b), order_of(*c, *d)),
        _ => None,
    }
}

fn after_str(word: &[u8]) -> Option<&[u8]>
    ensures { option_map (λ x. x.now) result ≡ after_str word.now }
{
    match word {
        [b's', b't', b'r', rest @ ..] => Some(rest),
        _ => None,
    }
}

/// The padding, and what stands behind its letter.
fn padding(rest: &[u8]) -> (Pad, &[u8])
    ensures pad { result.0 ≡ (padding rest.now).0 }
    ensures digits { result.1.now ≡ (padding rest.now).1 }
{
    match rest {
        [b'z', digits @ ..] => (Pad::Ended, digits),
        [b's', digits @ ..] => (Pad::Space, digits),
        _ => (Pad::Nul, rest),
    }
}

/// The size of a string type: 1 to 65,535.
fn read_text_size(digits: &[u8]) -> Option<u32>
    ensures found { IfSome result (λ n. IsNumber digits.now n × IsTextSize n) }
    ensures bad { IsNone result → (n : ℕ) → IsNumber digits.now n → IsTextSize n → ⊥ }
{
    match read_u64(digits) {
        Some(size) => {
            if 1 <= size && size <= 65_535 {
                Some(size as u32)
            } else {
                None
            }
        }
        None => None,
    }
}

/// The type that the word spells.
pub(crate) fn read_type(word: &[u8]) -> Option<ElemType>
    ensures found { IfSome result (λ t. IsType word.now t) }
    ensures bad { IsNone result → (t : ElemType) → IsType word.now t → ⊥ }
{
    match after_str(word) {
        Some(rest) => {
            let (pad, digits) = padding(rest);
            match read_text_size(digits) {
                Some(size) => Some(ElemType::Text { size, pad }),
                None => None,
            }
        }
        None => read_int(word),
    }
}
