ghost use Rattle.std.specs.Prelude.{◌≡◌, ◌*◌, ◌++◌, ◌∷◌, OnOk};
ghost use Rattle.std.specs.Fmt.{decimal};
ghost use Rattle.std.specs.List.{flat_map};
ghost use Rattle.script.specs.Print.{is_plain_name, name_symbol, name_text, size_text, sizes_text, chunk_text};
ghost use Rattle.script.specs.Print.{pad_text, sign_text, order_text, type_text};

use dtype::{Dims, ElemType, Pad, append, append_escape};
use h5_base::NoMemory;
use std::alloc::Global;

/// Appends a number's decimal digits.
pub(crate) fn put_number(alloc: Global, text: &mut Vec<u8>, number: u64) -> Result<(), NoMemory>
    ensures { OnOk result (text.new.items ≡ text.old.items ++ decimal number) }
{
    match number.to_string(alloc) {
        Ok(digits) => append(text, digits.as_bytes()),
        Err(_) => Err(NoMemory),
    }
}

fn is_plain(byte: u8) -> bool
    ensures { result ≡ is_plain_name byte }
{
    0x21 <= byte && byte <= 0x7E && byte != b'\\' && byte != b'>'
}

/// Appends a byte of a name as it is printed.
fn put_symbol(text: &mut Vec<u8>, byte: u8) -> Result<(), NoMemory>
    ensures { OnOk result (text.new.items ≡ text.old.items ++ name_symbol byte) }
{
    if is_plain(byte) {
        append(text, &[byte])
    } else {
        append_escape(text, byte)
    }
}

/// Appends a name, or the target of a soft link, with escapes.
pub(crate) fn put_name(text: &mut Vec<u8>, name: &[u8]) -> Result<(), NoMemory>
    ensures { OnOk result (text.new.items ≡ text.old.items ++ name_text name.now) }
{
    for byte in name {
        put_symbol(text, *byte)?;
    }
    Ok(())
}

/// Appends a size, where `maximum` with `*` for an unlimited one.
fn put_size(alloc: Global, text: &mut Vec<u8>, maximum: bool, size: u64) -> Result<(), NoMemory>
    ensures { OnOk result (text.new.items ≡ text.old.items ++ size_text maximum size) }
{
    if maximum && size == u64::MAX {
        append(text, b"*")
    } else {
        put_number(alloc, text, size)
    }
}

fn put_more_sizes(
    alloc: Global,
    text: &mut Vec<u8>,
    maximum: bool,
    sizes: &[u64],
) -> Result<(), NoMemory>
    ensures { OnOk result (text.new.items ≡ text.old.items ++ flat_map (λ m. 44 ∷ size_text maximum m) sizes.now) }
{
    for size in sizes {
        append(text, b",")?;
        put_size(alloc, text, maximum, *size)?;
    }
    Ok(())
}

/// Appends sizes with `,` between them, `-` where there are none.
pub(crate) fn put_sizes(
    alloc: Global,
    text: &mut Vec<u8>,
    maximum: bool,
    sizes: &[u64],
) -> Result<(), NoMemory>
    ensures { OnOk result (text.new.items ≡ text.old.items ++ sizes_text maximum sizes.now) }
{
    match sizes {
        [] => append(text, b"-"),
        [first, more @ ..] => {
            put_size(alloc, text, maximum, *first)?;
            put_more_sizes(alloc, text, maximum, more)
        }
    }
}

/// Appends chunk sizes, `none` where the dataset is contiguous.
pub(crate) fn put_chunk(
    alloc: Global,
    text: &mut Vec<u8>,
    chunk: &Option<Dims>,
) -> Result<(), NoMemory>
    ensures { OnOk result (text.new.items ≡ text.old.items ++ chunk_text chunk.now) }
{
    match chunk {
        None => append(text, b"none"),
        Some(sizes) => put_sizes(alloc, text, false, sizes.as_slice()),
    }
}

fn put_pad(text: &mut Vec<u8>, pad: Pad) -> Result<(), NoMemory>
    ensures { OnOk result (text.new.items ≡ text.old.items ++ pad_text pad) }
{
    match pad {
        Pad::Nul => append(text, b"str"),
        Pad::Ended => append(text, b"strz"),
        Pad::Space => append(text, b"strs"),
    }
}

fn put_int(
    alloc: Global,
    text: &mut Vec<u8>,
    size: u8,
    signed: bool,
    big: bool,
) -> Result<(), NoMemory>
    ensures { OnOk result (text.new.items ≡ text.old.items ++
        (sign_text signed ++ decimal (8 * size) ++ order_text big)) }
{
    append(
        text,
        if signed {
            b"i".as_slice()
        } else {
            b"u".as_slice()
        },
    )?;
    put_number(alloc, text, 8 * u64::from(size))?;
    append(
        text,
        if big {
            b"be".as_slice()
        } else {
            b"le".as_slice()
        },
    )
}

/// Appends a type's name.
pub(crate) fn put_type(
    alloc: Global,
    text: &mut Vec<u8>,
    elem_type: &ElemType,
) -> Result<(), NoMemory>
    ensures { OnOk result (text.new.items ≡ text.old.items ++ type_text elem_type.now) }
{
    match *elem_type {
        ElemType::Int { size, signed, big } => put_int(alloc, text, size, signed, big),
        ElemType::Text { size, pad } => {
            put_pad(text, pad)?;
            put_number(alloc, text, u64::from(size))
        }
    }
}
