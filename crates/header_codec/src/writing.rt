ghost use Rattle.std.specs.Prelude.{◌≡◌, ◌+◌, ◌*◌, ◌^◌, ◌≤◌, ◌<◌, ◌++◌, IfOk, OnOk, length, replicate, flat_map, All};
ghost use Rattle.std.specs.Int.{w16, w32, w64, to_le_bytes};
ghost use Rattle.dtype.specs.Shapes.{IsShape, SpellsShape, shape_bytes};
ghost use Rattle.dtype.specs.Types.{IsElemType, SpellsType, type_bytes};
ghost use Rattle.header_codec.specs.Written.{HasHeader, IsDataset, SpellsHeader, parts_of, header_bytes, part};
ghost use Rattle.header_codec.specs.Written.{message_bytes, prefix_bytes, table_bytes, value_bytes, alloc_time};
ghost use Rattle.header_codec.specs.Written.{fill_bytes, layout_bytes, filled, padding, IsFillValue, IsFit, IsLayout};
ghost use Rattle.header_codec.specs.Fills.{SpellsFill};
ghost use Rattle.header_codec.specs.Layouts.{SpellsLayout, IsChunk};

use crate::types::{Fill, Layout, NewHeader};
use dtype::{ElemType, Shape, write_shape, write_type};
use h5_base::{Bytes, NoMemory};
use std::alloc::Global;

const DATASPACE: u16 = 0x01;

const DATATYPE: u16 = 0x03;

const FILL_VALUE: u16 = 0x05;

const LAYOUT: u16 = 0x08;

const SYMBOL_TABLE: u16 = 0x11;

/// The whole header of a new object that one link names: 40 bytes for a group, and for a dataset its dataspace,
/// datatype, fill value and layout, in this order. The data of each message are filled up with zeros to a multiple of 8
/// bytes. (HDF5 File Format Specification 3.0, IV.A.)
pub fn write_header(alloc: Global, header: &NewHeader) -> Result<Bytes, NoMemory>
    // A dataset whose messages have a spelling: of at most 32 dimensions, with a fill value of at most 65,520 bytes.
    requires { HasHeader header.now }
    // Each byte.
    ensures bytes { IfOk result (λ b. b ≡ header_bytes header.now) }
    // Prefix and messages are read again as the same values.
    ensures spelled { IfOk result (SpellsHeader header.now (parts_of header.now)) }
{
    match header {
        NewHeader::Group { tree_at, heap_at } => write_group(alloc, *tree_at, *heap_at),
        NewHeader::Dataset {
            space,
            elem,
            fill,
            layout,
        } => write_dataset(alloc, space, elem, fill, layout),
    }
}

fn append(out: &mut Vec<u8>, bytes: &[u8]) -> Result<(), NoMemory>
    ensures { OnOk result (out.new.items ≡ out.old.items ++ bytes.now) }
{
    match out.extend_from_slice(bytes) {
        Ok(()) => Ok(()),
        Err(_) => Err(NoMemory),
    }
}

// The first eight bytes of a message, its flags 0.
fn message_head(kind: u16, len: u16) -> [u8; 8]
    ensures { result ≡ to_le_bytes w16 kind ++ to_le_bytes w16 len ++ replicate 4 0 }
{
    let [a, b] = kind.to_le_bytes();
    let [c, d] = len.to_le_bytes();
    [a, b, c, d, 0, 0, 0, 0]
}

// A message with these data.
fn append_message(out: &mut Vec<u8>, kind: u16, body: &[u8]) -> Result<(), NoMemory>
    requires { length body.now ≤ 65528 }
    ensures { OnOk result (out.new.items ≡ out.old.items ++ message_bytes (part kind body.now)) }
{
    let padding = (8 - body.len() % 8) % 8;
    append(out, &message_head(kind, (body.len() + padding) as u16))?;
    append(out, body)?;
    append(out, &[0; 8][..padding])
}

// The prefix and the messages behind it.
fn with_prefix(alloc: Global, count: u16, messages: &[u8]) -> Result<Bytes, NoMemory>
    requires { length messages.now < 2 ^ 32 }
    ensures { IfOk result (λ b. b ≡ prefix_bytes count (length messages.now) ++ messages.now) }
{
    let [a, b] = count.to_le_bytes();
    let [c, d, e, f] = (messages.len() as u32).to_le_bytes();
    let prefix = [1, 0, a, b, 1, 0, 0, 0, c, d, e, f, 0, 0, 0, 0];
    let mut bytes = match Vec::from_slice(alloc, &prefix) {
        Ok(bytes) => bytes,
        Err(_) => return Err(NoMemory),
    };
    append(&mut bytes, messages)?;
    Ok(Bytes::from_vec(bytes))
}

fn append_shape(alloc: Global, out: &mut Vec<u8>, shape: &Shape) -> Result<(), NoMemory>
    requires { IsShape shape.now }
    ensures appended { OnOk result (out.new.items ≡ out.old.items ++ message_bytes (part 1 (shape_bytes shape.now))) }
    ensures fit { OnOk result (IsFit (part 1 (shape_bytes shape.now))) }
    ensures told { OnOk result (SpellsShape shape.now (filled (shape_bytes shape.now))) }
{
    let body = write_shape(alloc, shape)?;
    append_message(out, DATASPACE, body.as_slice())
}

fn append_type(alloc: Global, out: &mut Vec<u8>, elem: &ElemType) -> Result<(), NoMemory>
    requires { IsElemType elem.now }
    ensures appended { OnOk result (out.new.items ≡ out.old.items ++ message_bytes (part 3 (type_bytes elem.now))) }
    ensures fit { OnOk result (IsFit (part 3 (type_bytes elem.now))) }
    ensures told { OnOk result (SpellsType elem.now (filled (type_bytes elem.now))) }
{
    let body = write_type(alloc, elem)?;
    append_message(out, DATATYPE, body.as_slice())
}

fn value_of(fill: &Fill) -> &[u8]
    ensures { result.now ≡ value_bytes fill.now }
{
    match fill {
        Fill::Zeros => &[],
        Fill::Value(value) => value.as_slice(),
    }
}

fn alloc_time(layout: &Layout) -> u8
    ensures { result ≡ alloc_time layout.now }
{
    match layout {
        Layout::Contiguous { .. } => 2,
        Layout::Chunked { .. } => 3,
    }
}

fn append_fill(
    alloc: Global,
    out: &mut Vec<u8>,
    layout: &Layout,
    fill: &Fill,
) -> Result<(), NoMemory>
    requires { IsFillValue fill.now }
    ensures appended { OnOk result (out.new.items ≡ out.old.items ++ message_bytes
        (part 5 (fill_bytes (alloc_time layout.now) (value_bytes fill.now)))) }
    ensures fit { OnOk result (IsFit (part 5 (fill_bytes (alloc_time layout.now) (value_bytes fill.now)))) }
    ensures told { OnOk result (SpellsFill fill.now
        (filled (fill_bytes (alloc_time layout.now) (value_bytes fill.now)))) }
{
    let value = value_of(fill);
    let [a, b, c, d] = (value.len() as u32).to_le_bytes();
    let head = [2, alloc_time(layout), 2, 1, a, b, c, d];
    let mut body = match Vec::from_slice(alloc, &head) {
        Ok(body) => body,
        Err(_) => return Err(NoMemory),
    };
    append(&mut body, value)?;
    append_message(out, FILL_VALUE, body.as_slice())
}

fn append_sizes(out: &mut Vec<u8>, sizes: &[u64]) -> Result<(), NoMemory>
    requires { All (λ n. n < 2 ^ 32) sizes.now }
    ensures { OnOk result (out.new.items ≡ out.old.items ++ flat_map (to_le_bytes w32) sizes.now) }
{
    for size in sizes {
        match out.extend_from_slice(&(*size as u32).to_le_bytes()) {
            Ok(()) => {}
            Err(_) => return Err(NoMemory),
        }
    }
    Ok(())
}

fn append_contiguous(out: &mut Vec<u8>, at: u64, len: u64) -> Result<(), NoMemory>
    ensures appended { OnOk result (out.new.items ≡ out.old.items ++ message_bytes
        (part 8 (layout_bytes (Layout.Contiguous at len)))) }
    ensures fit { OnOk result (IsFit (part 8 (layout_bytes (Layout.Contiguous at len)))) }
    ensures told { OnOk result (SpellsLayout (Layout.Contiguous at len)
        (filled (layout_bytes (Layout.Contiguous at len)))) }
{
    let [a, b, c, d, e, f, g, h] = at.to_le_bytes();
    let [i, j, k, l, m, n, o, p] = len.to_le_bytes();
    let body = [3, 1, a, b, c, d, e, f, g, h, i, j, k, l, m, n, o, p];
    append_message(out, LAYOUT, &body)
}

fn append_chunked(
    alloc: Global,
    out: &mut Vec<u8>,
    tree_at: u64,
    sizes: &[u64],
) -> Result<(), NoMemory>
    requires { IsChunk sizes.now }
    ensures appended { OnOk result (out.new.items ≡ out.old.items ++ message_bytes
        (part 8 (layout_bytes (Layout.Chunked tree_at sizes.now)))) }
    ensures fit { OnOk result (IsFit (part 8 (layout_bytes (Layout.Chunked tree_at sizes.now)))) }
    ensures told { OnOk result (SpellsLayout (Layout.Chunked tree_at sizes.now)
        (filled (layout_bytes (Layout.Chunked tree_at sizes.now)))) }
{
    let [a, b, c, d, e, f, g, h] = tree_at.to_le_bytes();
    let head = [3, 2, sizes.len() as u8, a, b, c, d, e, f, g, h];
    let mut body = match Vec::from_slice(alloc, &head) {
        Ok(body) => body,
        Err(_) => return Err(NoMemory),
    };
    append_sizes(&mut body, sizes)?;
    append_message(out, LAYOUT, body.as_slice())
}

fn append_layout(alloc: Global, out: &mut Vec<u8>, layout: &Layout) -> Result<(), NoMemory>
    requires { IsLayout layout.now }
    ensures appended { OnOk result (out.new.items ≡ out.old.items ++ message_bytes (part 8 (layout_bytes layout.now))) }
    ensures fit { OnOk result (IsFit (part 8 (layout_bytes layout.now))) }
    ensures told { OnOk result (SpellsLayout layout.now (filled (layout_bytes layout.now))) }
{
    match layout {
        Layout::Contiguous { at, len } => append_contiguous(out, *at, *len),
        Layout::Chunked { tree_at, sizes } => {
            append_chunked(alloc, out, *tree_at, sizes.as_slice())
        }
    }
}

fn write_group(alloc: Global, tree_at: u64, heap_at: u64) -> Result<Bytes, NoMemory>
    ensures bytes { IfOk result (λ b. b ≡ header_bytes (NewHeader.Group tree_at heap_at)) }
    ensures spelled { IfOk result (SpellsHeader (NewHeader.Group tree_at heap_at)
        (parts_of (NewHeader.Group tree_at heap_at))) }
{
    write_table(alloc, tree_at, heap_at)
}

// A header whose one message is the symbol table message.
fn write_table(alloc: Global, tree_at: u64, heap_at: u64) -> Result<Bytes, NoMemory>
    ensures { IfOk result (λ b. b ≡ header_bytes (NewHeader.Group tree_at heap_at)) }
{
    let [a, b, c, d, e, f, g, h] = tree_at.to_le_bytes();
    let [i, j, k, l, m, n, o, p] = heap_at.to_le_bytes();
    let table = [a, b, c, d, e, f, g, h, i, j, k, l, m, n, o, p];
    let mut messages = Vec::new(alloc);
    append_message(&mut messages, SYMBOL_TABLE, &table)?;
    with_prefix(alloc, 1, messages.as_slice())
}

fn write_dataset(
    alloc: Global,
    space: &Shape,
    elem: &ElemType,
    fill: &Fill,
    layout: &Layout,
) -> Result<Bytes, NoMemory>
    requires { IsDataset space.now elem.now fill.now layout.now }
    ensures bytes { IfOk result (λ b. b ≡ header_bytes (NewHeader.Dataset space.now elem.now fill.now layout.now)) }
    ensures spelled { IfOk result (SpellsHeader (NewHeader.Dataset space.now elem.now fill.now layout.now)
        (parts_of (NewHeader.Dataset space.now elem.now fill.now layout.now))) }
{
    let mut messages = Vec::new(alloc);
    append_shape(alloc, &mut messages, space)?;
    append_type(alloc, &mut messages, elem)?;
    append_fill(alloc, &mut messages, layout, fill)?;
    append_layout(alloc, &mut messages, layout)?;
    with_prefix(alloc, 4, messages.as_slice())
}
