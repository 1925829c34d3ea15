// The lines of answers that no command gives yet.
ghost use Rattle.script.specs.Print.{HasText};

use dtype::{ElemType, Pad};
use h5_base::Bytes;
use script::{Answer, Code, print_answer};
use std::alloc::Global;

// Whether the answer has this line.
fn prints(alloc: Global, answer: &Answer, text: &str) -> bool
    requires { HasText answer.now }
{
    match print_answer(alloc, answer) {
        Ok(line) => line.as_slice() == text.as_bytes(),
        Err(_) => false,
    }
}

// Whether the elements of these bytes have this line.
fn prints_values(alloc: Global, elem: ElemType, bytes: &[u8], text: &str) -> bool {
    let size = elem.size() as usize;
    if !elem.is_valid() || size == 0 || bytes.len() % size != 0 {
        return false;
    }
    match Bytes::from_slice(alloc, bytes) {
        Ok(bytes) => prints(alloc, &Answer::Values { elem, bytes }, text),
        Err(_) => false,
    }
}

// Numbers, none, and texts.
fn prints_elements(alloc: Global) -> bool {
    let number = ElemType::Int {
        size: 2,
        signed: true,
        big: true,
    };
    let text = ElemType::Text {
        size: 3,
        pad: Pad::Space,
    };
    prints_values(alloc, number, b"\x80\0\0\x07", "ok -32768 7")
        && prints_values(alloc, number, b"", "ok")
        && prints_values(alloc, text, b"a b\"  ", "ok \"a b\" \"\\x22\"")
}

fn prints_full(alloc: Global) -> bool {
    let full = Answer::Full {
        end: u64::MAX,
        need: 7,
    };
    prints(alloc, &full, "no full 18446744073709551615 7")
}

fn prints_revision(alloc: Global) -> bool {
    let done = Answer::Committed { rev: 12, pages: 0 };
    prints(alloc, &done, "ok rev 12 pages 0")
}

fn prints_code(alloc: Global, code: Code, line: &str) -> bool {
    let refused = Answer::No { code };
    prints(alloc, &refused, line)
}

#[test]
fn answers_are_printed(rt: HostRuntime) {
    let alloc = rt.alloc();
    assert!(rt; prints_elements(alloc) && prints_full(alloc) && prints_revision(alloc));
}

const CODES: [Code; 17] = [
    Code::BadLine,
    Code::NotBuilt,
    Code::ReadOnly,
    Code::Absent,
    Code::NotGroup,
    Code::Exists,
    Code::NotData,
    Code::Unsupported,
    Code::Filtered,
    Code::Range,
    Code::WrongType,
    Code::Fixed,
    Code::Shrink,
    Code::NotEmpty,
    Code::Limit,
    Code::NoOnion,
    Code::Clock,
];

const LINES: &str =
    "no bad-line,no not-built,no read-only,no absent,no not-group,no exists,no not-data,\
    no unsupported,no filtered,no range,no type,no fixed,no shrink,no not-empty,no limit,no no-onion,no clock";

#[test]
fn refusals_are_printed(rt: HostRuntime) {
    for (code, line) in CODES.iter().zip(LINES.split(',')) {
        assert!(rt; prints_code(rt.alloc(), *code, line));
    }
}
