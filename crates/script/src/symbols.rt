ghost use Rattle.std.specs.Prelude.{◌≡◌, List, ℕ, IfOk, Err};
ghost use Rattle.std.specs.Option.{option_map};
ghost use Rattle.script.specs.Names.{char_at, hex_digit, is_plain, may_escape, IsText};

use crate::stop::LineStop;
use std::alloc::Global;

/// Where a byte stands: in a path, or in a text in double quotes.
#[derive(Clone, Copy, Debug, PartialEq, Eq)]
pub(crate) enum Within {
    Path,
    Quotes,
}

fn is_plain(within: Within, c: u8) -> bool
    ensures { result ≡ is_plain within c }
{
    match within {
        Within::Path => 0x21 <= c && c <= 0x7E && c != b'\\',
        Within::Quotes => dtype::is_plain(c),
    }
}

fn may_escape(within: Within, c: u8) -> bool
    ensures { result ≡ may_escape within c }
{
    match within {
        Within::Path => !(is_plain(Within::Path, c) && c != b'>'),
        Within::Quotes => !is_plain(Within::Quotes, c),
    }
}

fn hex_digit(c: u8) -> Option<u8>
    ensures { result ≡ hex_digit c }
{
    match c {
        b'0'..=b'9' => Some(c - b'0'),
        b'A'..=b'F' => Some(c - 55),
        _ => None,
    }
}

/// The byte that the front of the text stands for, and the rest of the text.
fn take_char(within: Within, text: &[u8]) -> Option<(u8, &[u8])>
    ensures { option_map (λ x. (x.0, x.1.now)) result ≡ char_at within text.now }
{
    match text {
        [b'\\', b'x', high, low, rest @ ..] => {
            let high = hex_digit(*high)?;
            let low = hex_digit(*low)?;
            let c = 16 * high + low;
            if may_escape(within, c) {
                Some((c, rest))
            } else {
                None
            }
        }
        [b'\\', ..] => None,
        [c, rest @ ..] => {
            if is_plain(within, *c) {
                Some((*c, rest))
            } else {
                None
            }
        }
        [] => None,
    }
}

/// The bytes that the text spells.
pub(crate) fn read_text(alloc: Global, within: Within, text: &[u8]) -> Result<Vec<u8>, LineStop>
    ensures found { IfOk result (λ v. IsText within text.now v.items) }
    ensures bad { result ≡ Err LineStop.BadLine → (n : List ℕ) → IsText within text.now n → ⊥ }
{
    let mut bytes = Vec::new(alloc);
    let mut rest = text;
    while rest.len() > 0 {
        match take_char(within, rest) {
            None => return Err(LineStop::BadLine),
            Some((c, more)) => {
                bytes.push(c)?;
                rest = more;
            }
        }
    }
    Ok(bytes)
}
