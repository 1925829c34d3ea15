ghost use Rattle.std.specs.Prelude.{◌≡◌, ◌<◌, ◌≤◌, ◌+◌, ◌*◌, ◌/◌, ◌%◌, ◌++◌, OnOk, IfOk, codes, length};
ghost use Rattle.std.specs.List.{flat_map};
ghost use Rattle.std.specs.Fmt.{decimal};
ghost use Rattle.dtype.specs.Types.{IsElemType, size_of};
ghost use Rattle.dtype.specs.Values.{value_of, value_text};
ghost use Rattle.script.specs.Print.{HasText, answer_text, code_text, element_at, filtered_text, layout_text};
ghost use Rattle.script.specs.Print.{link_text, shown_letter, target_text, values_text};

use crate::texts::{put_chunk, put_name, put_number, put_sizes, put_type};
use crate::{Answer, Code, LinkLine, Shown};
use dtype::{Dims, ElemType, append, print_value};
use h5_base::{Bytes, NoMemory};
use std::alloc::Global;

/// Appends an element's value.
fn put_value(
    alloc: Global,
    text: &mut Vec<u8>,
    elem_type: &ElemType,
    elem: &[u8],
) -> Result<(), NoMemory>
    requires valid { IsElemType elem_type.now }
    requires whole { length elem.now ≡ size_of elem_type.now }
    ensures { OnOk result (text.new.items ≡ text.old.items ++ value_text (value_of elem_type.now elem.now)) }
{
    let printed = print_value(alloc, elem_type, elem)?;
    append(text, printed.as_slice())
}

/// The bytes that an element has.
fn elem_size(elem_type: &ElemType) -> usize
    requires { IsElemType elem_type.now }
    ensures size { result ≡ size_of elem_type.now }
    ensures some { 0 < result }
    ensures small { result ≤ 65535 }
{
    match *elem_type {
        ElemType::Int { size, .. } => usize::from(size),
        ElemType::Text { size, .. } => size as usize,
    }
}

/// The element at an index.
fn element<'a>(elem_type: &ElemType, bytes: &'a [u8], index: usize) -> &'a [u8]
    requires valid { IsElemType elem_type.now }
    requires inside { index * size_of elem_type.now + size_of elem_type.now ≤ length bytes.now }
    ensures elem { result.now ≡ element_at elem_type.now bytes.now index }
    ensures whole { length result.now ≡ size_of elem_type.now }
{
    let size = elem_size(elem_type);
    &bytes[index * size..index * size + size]
}

/// Appends each element's value, behind a space.
fn put_values(
    alloc: Global,
    text: &mut Vec<u8>,
    elem_type: &ElemType,
    bytes: &[u8],
) -> Result<(), NoMemory>
    requires valid { IsElemType elem_type.now }
    requires whole { length bytes.now % size_of elem_type.now ≡ 0 }
    ensures { OnOk result (text.new.items ≡ text.old.items ++ values_text elem_type.now bytes.now) }
{
    let count = bytes.len() / elem_size(elem_type);
    for index in 0..count {
        append(text, b" ")?;
        put_value(alloc, text, elem_type, element(elem_type, bytes, index))?;
    }
    Ok(())
}

fn put_letter(text: &mut Vec<u8>, shown: &Shown) -> Result<(), NoMemory>
    ensures { OnOk result (text.new.items ≡ text.old.items ++ shown_letter shown.now) }
{
    match shown {
        Shown::Group => append(text, b" g:"),
        Shown::Dataset => append(text, b" d:"),
        Shown::Soft(_) => append(text, b" l:"),
        Shown::Other => append(text, b" o:"),
    }
}

fn put_target(text: &mut Vec<u8>, shown: &Shown) -> Result<(), NoMemory>
    ensures { OnOk result (text.new.items ≡ text.old.items ++ target_text shown.now) }
{
    match shown {
        Shown::Soft(target) => {
            append(text, b">")?;
            put_name(text, target.as_slice())
        }
        _ => Ok(()),
    }
}

/// Appends a link, behind a space.
fn put_link(text: &mut Vec<u8>, link: &LinkLine) -> Result<(), NoMemory>
    ensures { OnOk result (text.new.items ≡ text.old.items ++ link_text link.now) }
{
    put_letter(text, &link.shown)?;
    put_name(text, link.name.as_slice())?;
    put_target(text, &link.shown)
}

fn put_links(text: &mut Vec<u8>, links: &[LinkLine]) -> Result<(), NoMemory>
    ensures { OnOk result (text.new.items ≡ text.old.items ++ flat_map link_text links.now) }
{
    for link in links {
        put_link(text, link)?;
    }
    Ok(())
}

/// Appends type, sizes, maximum sizes and chunk sizes.
fn put_layout(
    alloc: Global,
    text: &mut Vec<u8>,
    elem_type: &ElemType,
    dims: &Dims,
    max: &Dims,
    chunk: &Option<Dims>,
) -> Result<(), NoMemory>
    ensures { OnOk result (text.new.items ≡ text.old.items ++ layout_text elem_type.now dims.now max.now chunk.now) }
{
    put_type(alloc, text, elem_type)?;
    append(text, b" dims ")?;
    put_sizes(alloc, text, false, dims.as_slice())?;
    append(text, b" max ")?;
    put_sizes(alloc, text, true, max.as_slice())?;
    append(text, b" chunk ")?;
    put_chunk(alloc, text, chunk)
}

fn put_fill(
    alloc: Global,
    text: &mut Vec<u8>,
    elem_type: &ElemType,
    fill: &Bytes,
    filtered: bool,
) -> Result<(), NoMemory>
    requires valid { IsElemType elem_type.now }
    requires whole { length fill.now ≡ size_of elem_type.now }
    ensures { OnOk result (text.new.items ≡ text.old.items ++
        (codes " fill " ++ value_text (value_of elem_type.now fill.now) ++ filtered_text filtered)) }
{
    append(text, b" fill ")?;
    put_value(alloc, text, elem_type, fill.as_slice())?;
    if filtered {
        append(text, b" filtered")
    } else {
        Ok(())
    }
}

fn code_word(code: Code) -> &'static [u8]
    ensures { result.now ≡ code_text code }
{
    match code {
        Code::BadLine => b"bad-line".as_slice(),
        Code::NotBuilt => b"not-built".as_slice(),
        Code::ReadOnly => b"read-only".as_slice(),
        Code::Absent => b"absent".as_slice(),
        Code::NotGroup => b"not-group".as_slice(),
        Code::Exists => b"exists".as_slice(),
        Code::NotData => b"not-data".as_slice(),
        Code::Unsupported => b"unsupported".as_slice(),
        Code::Filtered => b"filtered".as_slice(),
        Code::Range => b"range".as_slice(),
        Code::WrongType => b"type".as_slice(),
        Code::Fixed => b"fixed".as_slice(),
        Code::Shrink => b"shrink".as_slice(),
        Code::NotEmpty => b"not-empty".as_slice(),
        Code::Limit => b"limit".as_slice(),
        Code::NoOnion => b"no-onion".as_slice(),
        Code::Clock => b"clock".as_slice(),
    }
}

/// Appends two numbers, the second behind a text.
fn put_two(
    alloc: Global,
    text: &mut Vec<u8>,
    first: u64,
    between: &[u8],
    second: u64,
) -> Result<(), NoMemory>
    ensures { OnOk result (text.new.items ≡ text.old.items ++ (decimal first ++ between.now ++ decimal second)) }
{
    put_number(alloc, text, first)?;
    append(text, between)?;
    put_number(alloc, text, second)
}

fn put_answer(alloc: Global, text: &mut Vec<u8>, answer: &Answer) -> Result<(), NoMemory>
    requires { HasText answer.now }
    ensures { OnOk result (text.new.items ≡ text.old.items ++ answer_text answer.now) }
{
    match answer {
        Answer::Done => append(text, b"ok"),
        Answer::Values { elem, bytes } => {
            append(text, b"ok")?;
            put_values(alloc, text, elem, bytes.as_slice())
        }
        Answer::Links { items } => {
            append(text, b"ok")?;
            put_links(text, items.as_slice())
        }
        Answer::Group { links } => {
            append(text, b"ok group ")?;
            put_number(alloc, text, *links)
        }
        Answer::Dataset {
            elem,
            dims,
            max,
            chunk,
            fill,
            filtered,
        } => {
            append(text, b"ok data ")?;
            put_layout(alloc, text, elem, dims, max, chunk)?;
            put_fill(alloc, text, elem, fill, *filtered)
        }
        Answer::Soft { target } => {
            append(text, b"ok link ")?;
            put_name(text, target.as_slice())
        }
        Answer::Other => append(text, b"ok other"),
        Answer::Committed { rev, pages } => {
            append(text, b"ok rev ")?;
            put_two(alloc, text, u64::from(*rev), b" pages ", *pages)
        }
        Answer::Full { end, need } => {
            append(text, b"no full ")?;
            put_two(alloc, text, *end, b" ", *need)
        }
        Answer::No { code } => {
            append(text, b"no ")?;
            append(text, code_word(*code))
        }
    }
}

/// The line that an answer is printed as, without an LF.
pub fn print_answer(alloc: Global, answer: &Answer) -> Result<Bytes, NoMemory>
    requires { HasText answer.now }
    ensures { IfOk result (λ b. b ≡ answer_text answer.now) }
{
    let mut text = Vec::new(alloc);
    put_answer(alloc, &mut text, answer)?;
    Ok(Bytes::from_vec(text))
}
