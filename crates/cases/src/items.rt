use crate::named::{Named, bytes_of};
use crate::stop::Stop;
use std::alloc::Global;

/// The most bytes that a file or a text of a case may have.
const MOST: u64 = 1 << 24;

/// The first word of a line, and what stands behind the space that ends it.
pub fn split_word(line: &str) -> (&str, &str) {
    line.split_once(' ').unwrap_or((line, ""))
}

/// A number in decimal.
pub fn number(text: &str) -> Result<u64, Stop> {
    match text.parse::<u64>() {
        Ok(n) => Ok(n),
        Err(_) => Err(Stop::Wrong("not a number")),
    }
}

/// A number of bytes.
pub fn count(text: &str) -> Result<usize, Stop> {
    let n = number(text)?;
    if n > MOST {
        return Err(Stop::Wrong("more than 16,777,216"));
    }
    Ok(n as usize)
}

// A number of so many bytes, its low byte first.
fn put_number(kind: &str, text: &str, out: &mut Vec<u8>) -> Result<(), Stop> {
    let width: usize = match kind {
        "u8" => 1,
        "u16" => 2,
        "u32" => 4,
        "u64" => 8,
        _ => return Err(Stop::Wrong("not bytes")),
    };
    let bytes = number(text)?.to_le_bytes();
    for (i, b) in bytes.iter().enumerate() {
        if i < width {
            out.push(*b)?;
        } else if *b != 0 {
            return Err(Stop::Wrong("the number is too great"));
        }
    }
    Ok(())
}

// Hexadecimal digits, so many times.
fn put_hex(alloc: Global, digits: &str, times: &str, out: &mut Vec<u8>) -> Result<(), Stop> {
    let times = count(times)?;
    let Ok(bytes) = hex::decode(alloc, digits) else {
        return Err(Stop::Wrong("not bytes"));
    };
    if times as u128 * bytes.len() as u128 > MOST as u128 {
        return Err(Stop::Wrong("more than 16,777,216"));
    }
    for _ in 0..times {
        out.extend_from_slice(bytes.as_slice())?;
    }
    Ok(())
}

fn put_named(name: &str, named: &[Named], out: &mut Vec<u8>) -> Result<(), Stop> {
    let bytes = bytes_of(named, name)?;
    Ok(out.extend_from_slice(bytes)?)
}

// What stands behind the quote that begins a text.
fn put_text(rest: &str, out: &mut Vec<u8>) -> Result<(), Stop> {
    match rest.strip_suffix('\'') {
        Some(text) => Ok(out.extend_from_slice(text.as_bytes())?),
        None => Err(Stop::Wrong("a quote is missing")),
    }
}

// One item: 'text', @name, u32:7, 0A0B or 00*16.
fn put_item(alloc: Global, item: &str, named: &[Named], out: &mut Vec<u8>) -> Result<(), Stop> {
    if let Some(rest) = item.strip_prefix('\'') {
        return put_text(rest, out);
    }
    if let Some(name) = item.strip_prefix('@') {
        return put_named(name, named, out);
    }
    if let Some((kind, text)) = item.split_once(':') {
        return put_number(kind, text, out);
    }
    match item.split_once('*') {
        Some((digits, times)) => put_hex(alloc, digits, times, out),
        None => put_hex(alloc, item, "1", out),
    }
}

/// Adds the bytes of items with spaces between them.
pub fn add_items(
    alloc: Global,
    text: &str,
    named: &[Named],
    out: &mut Vec<u8>,
) -> Result<(), Stop> {
    for item in text.split_ascii_whitespace() {
        put_item(alloc, item, named, out)?;
    }
    Ok(())
}
