ghost use Rattle.std.specs.Prelude.{◌≡◌, ◌+◌, ◌<◌, ◌≤◌, ◌∷◌, ◌==◌, [], length, take, drop, map, position, IfOk, IfSome};
ghost use Rattle.std.specs.Prelude.{IfNone, IsTrue, ◌↔◌};
ghost use Rattle.std.specs.Option.{option_map};
ghost use Rattle.script.specs.Words.{split_on, before_len, next_word};

use std::alloc::{AllocError, Global};

fn position_of(bytes: &[u8], c: u8) -> Option<usize>
    ensures { result ≡ position (λ b. b == c) bytes.now }
{
    bytes.iter().position(|b| *b == c)
}

/// The first place of c.
fn find(bytes: &[u8], c: u8) -> Option<usize>
    ensures within { IfSome result (λ at. at < length bytes.now) }
    ensures found { IfSome result (λ at. split_on c bytes.now ≡ take at bytes.now ∷ split_on c
        (drop (at + 1) bytes.now)) }
    ensures none { IfNone result (split_on c bytes.now ≡ bytes.now ∷ []) }
{
    position_of(bytes, c)
}

fn behind(bytes: &[u8], at: usize) -> &[u8]
    requires { at < length bytes.now }
    ensures { result.now ≡ drop (at + 1) bytes.now }
{
    &bytes[at + 1..]
}

/// What stands before, between and after the bytes c.
pub(crate) fn split(alloc: Global, c: u8, bytes: &[u8]) -> Result<Vec<&[u8]>, AllocError>
    ensures { IfOk result (λ v. map (λ w. w.now) v.items ≡ split_on c bytes.now) }
{
    let mut words = Vec::new(alloc);
    let mut rest = bytes;
    while let Some(at) = find(rest, c) {
        words.push(&rest[..at])?;
        rest = behind(rest, at);
    }
    words.push(rest)?;
    Ok(words)
}

/// How many bytes stand before the first c.
pub(crate) fn before_len(text: &[u8], c: u8) -> usize
    ensures len { result ≡ before_len c text.now }
    ensures inside { result ≤ length text.now }
{
    let mut end = 0;
    while end < text.len() && text[end] != c {
        end += 1;
    }
    end
}

/// The word behind the one space at the front of the text, and the rest.
pub(crate) fn next_word(text: &[u8]) -> Option<(&[u8], &[u8])>
    ensures { option_map (λ x. (x.0.now, x.1.now)) result ≡ next_word text.now }
{
    match text {
        [b' ', text @ ..] => {
            let len = before_len(text, b' ');
            Some((&text[..len], &text[len..]))
        }
        _ => None,
    }
}

/// Whether the word is this one.
pub(crate) fn is_word(word: &[u8], name: &[u8]) -> bool
    ensures { IsTrue result ↔ (word.now ≡ name.now) }
{
    word == name
}
