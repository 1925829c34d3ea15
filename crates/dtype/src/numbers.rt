ghost use Rattle.std.specs.Prelude.{◌≡◌, ◌↔◌, ◌*◌, ◌-◌, ◌^◌, IfOk, IsTrue, length, pos, if◌then◌else◌};
ghost use Rattle.std.specs.Int.{cast_unsigned, to_le_bytes, to_be_bytes};
ghost use Rattle.dtype.specs.Types.{IsIntSize};
ghost use Rattle.dtype.specs.Values.{HoldsNumber, number_of, number_bytes, unsigned_of, width_of};

use h5_base::{Bytes, NoMemory};
use std::alloc::Global;

/// Half of the numbers that an integer of this size tells apart.
fn half(size: usize) -> i128
    requires { IsIntSize size }
    ensures { result ≡ pos (2 ^ (8 * size - 1)) }
{
    match size {
        1 => 0x80,
        2 => 0x8000,
        4 => 0x8000_0000,
        _ => 0x8000_0000_0000_0000,
    }
}

/// Whether an integer of this size can hold the number.
pub(crate) fn holds_number(size: usize, signed: bool, number: i128) -> bool
    requires { IsIntSize size }
    ensures { IsTrue result ↔ HoldsNumber signed size number }
{
    let half = half(size);
    if signed {
        -half <= number && number < half
    } else {
        0 <= number && number < 2 * half
    }
}

/// The bits of a number in two's complement, as an unsigned number.
fn bits_of(size: usize, signed: bool, number: i128) -> u64
    requires size { IsIntSize size }
    requires held { HoldsNumber signed size number }
    ensures { result ≡ cast_unsigned (width_of size) number }
{
    if number < 0 {
        (number + 2 * half(size)) as u64
    } else {
        number as u64
    }
}

/// The bytes of a number that an integer of this size can hold.
pub(crate) fn encode_number(
    alloc: Global,
    size: usize,
    signed: bool,
    big: bool,
    number: i128,
) -> Result<Bytes, NoMemory>
    requires size { IsIntSize size }
    requires held { HoldsNumber signed size number }
    ensures { IfOk result (λ b. b ≡ number_bytes big (width_of size) number) }
{
    let bits = bits_of(size, signed, number);
    if big {
        Bytes::from_slice(alloc, &bits.to_be_bytes()[8 - size..])
    } else {
        Bytes::from_slice(alloc, &bits.to_le_bytes()[..size])
    }
}

/// The number of the bytes, without a sign.
fn unsigned(big: bool, bytes: &[u8]) -> u64
    requires { IsIntSize (length bytes.now) }
    ensures { result ≡ unsigned_of big (width_of (length bytes.now)) bytes.now }
{
    let mut wide = [0; 8];
    if big {
        wide[8 - bytes.len()..].copy_from_slice(bytes);
        u64::from_be_bytes(wide)
    } else {
        wide[..bytes.len()].copy_from_slice(bytes);
        u64::from_le_bytes(wide)
    }
}

/// The number of the bytes.
pub(crate) fn decode_number(signed: bool, big: bool, bytes: &[u8]) -> i128
    requires { IsIntSize (length bytes.now) }
    ensures { result ≡ number_of signed big (width_of (length bytes.now)) bytes.now }
{
    let number = i128::from(unsigned(big, bytes));
    let half = half(bytes.len());
    if signed && number >= half {
        number - 2 * half
    } else {
        number
    }
}
