// Datatypes and dataspaces, written and read again.
use dtype::{ElemType, Pad, read_shape, read_type, write_shape, write_type};
use std::alloc::Global;
use std::test::Fail;

// Whether the type is written as these bytes, and read from them.
fn is_type(alloc: Global, elem: ElemType, want: &[u8]) -> bool {
    match write_type(alloc, &elem) {
        Ok(bytes) => bytes.as_slice() == want && read_type(want) == Some(elem),
        Err(_) => false,
    }
}

fn is_text(alloc: Global, pad: Pad, want: &[u8]) -> bool {
    is_type(alloc, ElemType::Text { size: 700, pad }, want)
}

fn is_int(alloc: Global, size: u8, signed: bool, big: bool, want: &[u8]) -> bool {
    is_type(alloc, ElemType::Int { size, signed, big }, want)
}

#[test]
fn types_are_written(rt: HostRuntime) {
    let alloc = rt.alloc();
    let all = is_int(alloc, 8, true, false, b"\x10\x08\0\0\x08\0\0\0\0\0\x40\0")
        && is_int(alloc, 2, false, true, b"\x10\x01\0\0\x02\0\0\0\0\0\x10\0")
        && is_text(alloc, Pad::Ended, b"\x13\x00\0\0\xBC\x02\0\0")
        && is_text(alloc, Pad::Nul, b"\x13\x01\0\0\xBC\x02\0\0")
        && is_text(alloc, Pad::Space, b"\x13\x02\0\0\xBC\x02\0\0");
    assert!(rt; all);
}

// Whether these sizes are read from the bytes, and the shape is written as the same bytes.
fn is_shape(alloc: Global, bytes: &[u8], sizes: &[u64]) -> Result<bool, Fail> {
    let shape = read_shape(alloc, bytes)?;
    let same = shape.dims.as_slice() == sizes;
    let written = write_shape(alloc, &shape)?;
    Ok(same && written.as_slice() == bytes)
}

/// A size without a maximum, and one whose maximum is unlimited.
#[test]
fn shapes_are_written(rt: HostRuntime) -> Result<(), Fail> {
    let one = b"\x01\x01\0\0\0\0\0\0\x02\0\0\0\0\0\0\0";
    let two = b"\x01\x01\x01\0\0\0\0\0\x02\0\0\0\0\0\0\0\xFF\xFF\xFF\xFF\xFF\xFF\xFF\xFF";
    let all = is_shape(rt.alloc(), one, &[2])? && is_shape(rt.alloc(), two, &[2])?;
    assert!(rt; all);
    Ok(())
}
