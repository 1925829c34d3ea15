// The bytes and the texts of elements.
use dtype::{ElemType, Pad, Value, ValueStop, encode_value, print_value};
use h5_base::Bytes;
use std::alloc::Global;
use std::test::Fail;

// The bytes of an element that holds the value.
fn encoded(alloc: Global, elem: ElemType, value: &Value) -> Result<Bytes, ValueStop> {
    if !elem.is_valid() {
        return Err(ValueStop::NoMemory);
    }
    encode_value(alloc, &elem, value)
}

// Whether an element of these bytes prints so.
fn prints(alloc: Global, elem: ElemType, stored: &[u8], text: &str) -> bool {
    if !elem.is_valid() || stored.len() != elem.size() as usize {
        return false;
    }
    match print_value(alloc, &elem, stored) {
        Ok(printed) => printed.as_slice() == text.as_bytes(),
        Err(_) => false,
    }
}

// Whether the value is stored as these bytes, and printed so.
fn holds(alloc: Global, elem: ElemType, value: &Value, stored: &[u8], text: &str) -> bool {
    match encoded(alloc, elem, value) {
        Ok(bytes) => bytes.as_slice() == stored && prints(alloc, elem, stored, text),
        Err(_) => false,
    }
}

// Whether the number is stored as these bytes in either order, the low byte first here.
fn holds_number(
    alloc: Global,
    signed: bool,
    number: i128,
    low: &[u8],
    text: &str,
) -> Result<bool, Fail> {
    let mut high = Vec::from_slice(alloc, low)?;
    high.reverse();
    let size = low.len().min(8) as u8;
    let value = Value::Num(number);
    let little = ElemType::Int {
        size,
        signed,
        big: false,
    };
    let big = ElemType::Int {
        size,
        signed,
        big: true,
    };
    Ok(holds(alloc, little, &value, low, text) && holds(alloc, big, &value, high.as_slice(), text))
}

/// The least number of each size with a sign, and the greatest without.
#[test]
fn numbers(rt: HostRuntime) -> Result<(), Fail> {
    for (signed, number, low, text) in [
        (true, -0x80, b"\x80".as_slice(), "-128"),
        (false, 0xFF, b"\xFF".as_slice(), "255"),
        (true, -2, b"\xFE\xFF".as_slice(), "-2"),
        (false, 0xFFFF, b"\xFF\xFF".as_slice(), "65535"),
        (true, -0x8000_0000, b"\0\0\0\x80".as_slice(), "-2147483648"),
        (
            false,
            0xFFFF_FFFF,
            b"\xFF\xFF\xFF\xFF".as_slice(),
            "4294967295",
        ),
        (
            true,
            i64::MIN as i128,
            b"\0\0\0\0\0\0\0\x80".as_slice(),
            "-9223372036854775808",
        ),
        (
            false,
            u64::MAX as i128,
            b"\xFF\xFF\xFF\xFF\xFF\xFF\xFF\xFF".as_slice(),
            "18446744073709551615",
        ),
    ] {
        assert!(rt; holds_number(rt.alloc(), signed, number, low, text)?);
    }
    Ok(())
}

// The same for a text in four bytes.
fn holds_text(alloc: Global, pad: Pad, value: &[u8], stored: &[u8], text: &str) -> bool {
    match Bytes::from_slice(alloc, value) {
        Ok(bytes) => {
            let elem = ElemType::Text { size: 4, pad };
            holds(alloc, elem, &Value::Text(bytes), stored, text)
        }
        Err(_) => false,
    }
}

/// Each padding, up to the greatest length.
#[test]
fn texts(rt: HostRuntime) {
    let alloc = rt.alloc();
    let nul = holds_text(alloc, Pad::Nul, b"abcd", b"abcd", "\"abcd\"")
        && holds_text(alloc, Pad::Nul, b"a", b"a\0\0\0", "\"a\"")
        && holds_text(alloc, Pad::Nul, b"a\0b\0", b"a\0b\0", "\"a\\x00b\"")
        && holds_text(
            alloc,
            Pad::Nul,
            b"\"\\~\x7F",
            b"\"\\~\x7F",
            "\"\\x22\\x5C~\\x7F\"",
        );
    let ended = holds_text(alloc, Pad::Ended, b"abc", b"abc\0", "\"abc\"")
        && holds_text(alloc, Pad::Ended, b"a\0b", b"a\0b\0", "\"a\"");
    let space = holds_text(alloc, Pad::Space, b" a", b" a  ", "\" a\"")
        && holds_text(alloc, Pad::Space, b"", b"    ", "\"\"");
    assert!(rt; nul && ended && space);
}

fn is_wrong(alloc: Global, elem: ElemType, value: &Value) -> bool {
    matches!(encoded(alloc, elem, value), Err(ValueStop::WrongValue))
}

fn is_wrong_number(alloc: Global, size: u8, signed: bool, number: i128) -> bool {
    let elem = ElemType::Int {
        size,
        signed,
        big: false,
    };
    is_wrong(alloc, elem, &Value::Num(number))
}

fn is_wrong_text(alloc: Global, elem: ElemType, text: &[u8]) -> bool {
    match Bytes::from_slice(alloc, text) {
        Ok(bytes) => is_wrong(alloc, elem, &Value::Text(bytes)),
        Err(_) => false,
    }
}

// Texts that are too long, a text in place of a number, and a number in place of a text.
fn are_wrong(alloc: Global) -> bool {
    let nul = ElemType::Text {
        size: 4,
        pad: Pad::Nul,
    };
    let ended = ElemType::Text {
        size: 4,
        pad: Pad::Ended,
    };
    let space = ElemType::Text {
        size: 4,
        pad: Pad::Space,
    };
    let number = ElemType::Int {
        size: 8,
        signed: true,
        big: false,
    };
    is_wrong_text(alloc, nul, b"abcde")
        && is_wrong_text(alloc, ended, b"abcd")
        && is_wrong_text(alloc, space, b"abcd ")
        && is_wrong_text(alloc, number, b"1")
        && is_wrong(alloc, nul, &Value::Num(1))
}

/// Texts, and numbers one below the least and one above the greatest.
#[test]
fn wrong_values(rt: HostRuntime) {
    assert!(rt; are_wrong(rt.alloc()));
    for (size, signed, number) in [
        (1, true, -0x81),
        (1, true, 0x80),
        (1, false, -1),
        (1, false, 0x100),
        (8, true, 0x8000_0000_0000_0000),
        (8, false, 0x1_0000_0000_0000_0000),
        (8, false, i128::MIN),
        (8, true, i128::MAX),
    ] {
        assert!(rt; is_wrong_number(rt.alloc(), size, signed, number));
    }
}
