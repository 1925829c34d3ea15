use std::alloc::{AllocError, Global};
use std::env::FillError;
use std::rt::Env;

/// One argument, none past the last. Bytes that aren't UTF-8 are replaced, by a character that no word admits.
fn argument(rt: &HostRuntime, alloc: Global, i: usize) -> Result<Option<String>, AllocError> {
    let mut capacity = 256usize;
    for _ in 0..usize::BITS {
        let mut bytes = Vec::new(alloc);
        bytes.resize(capacity, 0u8)?;
        match rt.arg(i, bytes.as_mut_slice()) {
            Ok(n) => return Ok(Some(String::from_utf8_lossy(alloc, &bytes[..n])?)),
            Err(FillError::TooLong) => capacity = capacity.saturating_add(capacity),
            Err(FillError::NotPresent) => return Ok(None),
        }
    }
    Err(AllocError)
}

/// The words of the command line, without the program's own name.
pub fn words(rt: &HostRuntime) -> Result<Vec<String>, AllocError> {
    let alloc = rt.alloc();
    let mut words = Vec::new(alloc);
    for i in 1..usize::MAX {
        match argument(rt, alloc, i)? {
            Some(word) => words.push(word)?,
            None => break,
        }
    }
    Ok(words)
}
