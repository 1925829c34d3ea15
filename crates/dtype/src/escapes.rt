ghost use Rattle.std.specs.Prelude.{◌≡◌, ◌<◌, ◌++◌, OnOk, true};
ghost use Rattle.std.specs.Fmt.{digit_glyph};
ghost use Rattle.dtype.specs.Values.{escape, is_plain};

use h5_base::NoMemory;

/// Whether the byte stands for itself in a quoted text: 0x20 to 0x7E other than `"` and `\`.
pub fn is_plain(byte: u8) -> bool
    ensures plain { result ≡ is_plain byte }
{
    0x20 <= byte && byte <= 0x7E && byte != b'"' && byte != b'\\'
}

fn hex_digit(digit: u8) -> u8
    requires { digit < 16 }
    ensures { result ≡ digit_glyph true digit }
{
    if digit < 10 {
        b'0' + digit
    } else {
        b'A' + (digit - 10)
    }
}

/// Appends bytes to a text.
pub fn append(text: &mut Vec<u8>, bytes: &[u8]) -> Result<(), NoMemory>
    ensures appended { OnOk result (text.new.items ≡ text.old.items ++ bytes.now) }
{
    match text.extend_from_slice(bytes) {
        Ok(()) => Ok(()),
        Err(_) => Err(NoMemory),
    }
}

/// Appends a byte by its number, as `\xHH`.
pub fn append_escape(text: &mut Vec<u8>, byte: u8) -> Result<(), NoMemory>
    ensures appended { OnOk result (text.new.items ≡ text.old.items ++ escape byte) }
{
    append(
        text,
        &[b'\\', b'x', hex_digit(byte / 16), hex_digit(byte % 16)],
    )
}
