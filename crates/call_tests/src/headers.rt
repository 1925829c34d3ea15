// Object headers of a new group and a new dataset, written.
use dtype::{Dims, ElemType, Pad, Shape};
use header_codec::{Fill, Layout, NewHeader, write_header};
use std::alloc::Global;
use std::test::Fail;

// An empty root group: the prefix, and a symbol table message.
const GROUP: [u8; 40] = *b"\x01\0\x01\0\x01\0\0\0\x18\0\0\0\0\0\0\0\
    \x11\0\x10\0\0\0\0\0\x88\0\0\0\0\0\0\0\xA8\x02\0\0\0\0\0\0";

// 2 strings of 5 bytes, padded with NUL, at 2048: prefix, dataspace, datatype, fill value and layout.
const STRINGS: [u8; 104] = *b"\x01\0\x04\0\x01\0\0\0\x58\0\0\0\0\0\0\0\
    \x01\0\x10\0\0\0\0\0\x01\x01\0\0\0\0\0\0\x02\0\0\0\0\0\0\0\
    \x03\0\x08\0\0\0\0\0\x13\x01\0\0\x05\0\0\0\
    \x05\0\x08\0\0\0\0\0\x02\x02\x02\x01\0\0\0\0\
    \x08\0\x18\0\0\0\0\0\x03\x01\0\x08\0\0\0\0\0\0\x0A\0\0\0\0\0\0\0\0\0\0\0\0\0";

// Whether the header is written as these bytes.
fn is_written(alloc: Global, header: &NewHeader, bytes: &[u8]) -> bool {
    if !header.is_writable() {
        return false;
    }
    match write_header(alloc, header) {
        Ok(written) => written.as_slice() == bytes,
        Err(_) => false,
    }
}

// The same for strings of these sizes.
fn are_strings(alloc: Global, dims: Dims, bytes: &[u8]) -> bool {
    let header = NewHeader::Dataset {
        space: Shape { dims, max: None },
        elem: ElemType::Text {
            size: 5,
            pad: Pad::Nul,
        },
        fill: Fill::Zeros,
        layout: Layout::Contiguous { at: 2048, len: 10 },
    };
    is_written(alloc, &header, bytes)
}

#[test]
fn group_header_is_written(rt: HostRuntime) {
    let group = NewHeader::Group {
        tree_at: 136,
        heap_at: 680,
    };
    let good = is_written(rt.alloc(), &group, &GROUP);
    assert!(rt; good);
}

#[test]
fn dataset_header_is_written(rt: HostRuntime) -> Result<(), Fail> {
    let dims = Dims::from_slice(rt.alloc(), &[2])?;
    assert!(rt; are_strings(rt.alloc(), dims, &STRINGS));
    Ok(())
}
