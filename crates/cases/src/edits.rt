use crate::crowding::crowd;
use crate::items::{add_items, count, split_word};
use crate::named::{Named, bytes_of};
use crate::nesting::nested;
use crate::stop::Stop;
use std::alloc::Global;
use std::fs;

// Puts a piece over the bytes from `at` on, which it may not leave.
fn put(bytes: &mut Vec<u8>, at: usize, piece: &[u8]) -> Result<(), Stop> {
    if at > bytes.len() || piece.len() > bytes.len() - at {
        return Err(Stop::Wrong("past the end"));
    }
    bytes[at..at + piece.len()].copy_from_slice(piece);
    Ok(())
}

fn put_items(alloc: Global, line: &str, named: &[Named], bytes: &mut Vec<u8>) -> Result<(), Stop> {
    let (at, rest) = split_word(line);
    let at = count(at)?;
    let mut piece = Vec::new(alloc);
    add_items(alloc, rest, named, &mut piece)?;
    put(bytes, at, piece.as_slice())
}

fn read_file(rt: &HostRuntime, path: &str, bytes: &mut Vec<u8>) -> Result<(), Stop> {
    match fs::read(rt, path) {
        Ok(read) => {
            *bytes = read;
            Ok(())
        }
        Err(_) => Err(Stop::Wrong("the file can't be read")),
    }
}

fn copy(bytes: &mut Vec<u8>, from: &[u8]) -> Result<(), Stop> {
    bytes.clear();
    Ok(bytes.extend_from_slice(from)?)
}

fn set_len(bytes: &mut Vec<u8>, text: &str) -> Result<(), Stop> {
    let len = count(text)?;
    Ok(bytes.resize(len, 0)?)
}

/// Makes an edit: `from NAME`, `data FILE`, `nested N` and `crowd N` put other bytes in the place of all; `len N`,
/// `at N ITEMS` and `add ITEMS` change some.
pub fn edit(
    rt: &HostRuntime,
    line: &str,
    named: &[Named],
    bytes: &mut Vec<u8>,
) -> Result<(), Stop> {
    let alloc = rt.alloc();
    let (word, rest) = split_word(line);
    match word {
        "from" => copy(bytes, bytes_of(named, rest)?),
        "data" => read_file(rt, rest, bytes),
        "nested" => nested(alloc, rest, bytes),
        "crowd" => crowd(alloc, rest, bytes),
        "len" => set_len(bytes, rest),
        "at" => put_items(alloc, rest, named, bytes),
        "add" => add_items(alloc, rest, named, bytes),
        _ => Err(Stop::Wrong("unknown word")),
    }
}
