ghost use Rattle.std.specs.Prelude.{◌≡◌, ◌<◌, ◌≤◌, ◌+◌, ◌++◌, ◌↔◌, IfOk, OnOk, IsTrue, length};
ghost use Rattle.dtype.specs.Values.{filler, least_fill, quoted, symbol, text_bytes, unpadded, without_last};

use crate::Pad;
use crate::escapes::{append, append_escape, is_plain};
use h5_base::{Bytes, NoMemory};
use std::alloc::Global;

/// The byte that fills a text up.
fn fill_byte(pad: Pad) -> u8
    ensures { result ≡ filler pad }
{
    match pad {
        Pad::Nul | Pad::Ended => 0,
        Pad::Space => b' ',
    }
}

/// How many of them an element has at least.
fn fill_at_least(pad: Pad) -> usize
    ensures { result ≡ least_fill pad }
{
    match pad {
        Pad::Ended => 1,
        Pad::Nul | Pad::Space => 0,
    }
}

/// Whether a string of this size can hold the text.
pub(crate) fn holds_text(size: usize, pad: Pad, text: &[u8]) -> bool
    ensures { IsTrue result ↔ (length text.now + least_fill pad ≤ size) }
{
    text.len() <= size && fill_at_least(pad) <= size - text.len()
}

/// The text, filled up to the size of an element.
pub(crate) fn encode_text(
    alloc: Global,
    size: usize,
    pad: Pad,
    text: &[u8],
) -> Result<Bytes, NoMemory>
    requires { length text.now ≤ size }
    ensures { IfOk result (λ b. b ≡ text_bytes pad size text.now) }
{
    let mut bytes = match Vec::from_slice(alloc, text) {
        Ok(bytes) => bytes,
        Err(_) => return Err(NoMemory),
    };
    match bytes.resize(size, fill_byte(pad)) {
        Ok(()) => Ok(Bytes::from_vec(bytes)),
        Err(_) => Err(NoMemory),
    }
}

/// The text without the bytes `last` at its end.
fn trim_last(last: u8, text: &[u8]) -> &[u8]
    ensures { result.now ≡ without_last last text.now }
{
    let mut end = text.len();
    while end > 0 && text[end - 1] == last {
        end -= 1;
    }
    &text[..end]
}

/// The bytes before the first NUL.
fn before_nul(text: &[u8]) -> &[u8]
    ensures { result.now ≡ unpadded Pad.Ended text.now }
{
    let mut end = 0;
    while end < text.len() && text[end] != 0 {
        end += 1;
    }
    &text[..end]
}

/// The text of an element, without its padding.
pub(crate) fn trim_padding(pad: Pad, elem: &[u8]) -> &[u8]
    ensures { result.now ≡ unpadded pad elem.now }
{
    match pad {
        Pad::Nul => trim_last(0, elem),
        Pad::Ended => before_nul(elem),
        Pad::Space => trim_last(b' ', elem),
    }
}

/// Appends the byte as it stands in a quoted text.
fn append_symbol(text: &mut Vec<u8>, byte: u8) -> Result<(), NoMemory>
    ensures { OnOk result (text.new.items ≡ text.old.items ++ symbol byte) }
{
    if is_plain(byte) {
        append(text, &[byte])
    } else {
        append_escape(text, byte)
    }
}

/// The text in double quotes, with escapes.
pub(crate) fn quote(alloc: Global, text: &[u8]) -> Result<Bytes, NoMemory>
    ensures { IfOk result (λ b. b ≡ quoted text.now) }
{
    let mut out = Vec::new(alloc);
    append(&mut out, b"\"")?;
    for byte in text {
        append_symbol(&mut out, *byte)?;
    }
    append(&mut out, b"\"")?;
    Ok(Bytes::from_vec(out))
}
