use crate::stop::Stop;
use std::alloc::{AllocError, Global};

/// Bytes under a name: a definition, or a file.
#[derive(Drop)]
pub struct Named {
    pub name: String,
    pub bytes: Vec<u8>,
}

impl Named {
    /// No bytes under a name.
    pub fn new(alloc: Global, name: &str) -> Result<Named, AllocError> {
        Ok(Named {
            name: String::from_str(alloc, name)?,
            bytes: Vec::new(alloc),
        })
    }

    /// A copy of bytes under a name.
    pub fn copied(alloc: Global, name: &str, bytes: &[u8]) -> Result<Named, AllocError> {
        let mut named = Named::new(alloc, name)?;
        named.bytes.extend_from_slice(bytes)?;
        Ok(named)
    }
}

/// The place of a name.
pub fn place_of(list: &[Named], name: &str) -> Option<usize> {
    for (i, it) in list.iter().enumerate() {
        if it.name.as_str() == name {
            return Some(i);
        }
    }
    None
}

/// The bytes that a name was given.
pub fn bytes_of<'a>(list: &'a [Named], name: &str) -> Result<&'a [u8], Stop> {
    for it in list {
        if it.name.as_str() == name {
            return Ok(it.bytes.as_slice());
        }
    }
    Err(Stop::Wrong("no such name above"))
}
