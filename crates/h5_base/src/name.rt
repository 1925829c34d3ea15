ghost use Rattle.std.specs.Prelude.{◌≡◌, ◌↔◌, IfOk, IsTrue};
ghost use Rattle.h5_base.specs.Names.{IsName, is_name_byte};

use crate::{Bytes, NoMemory};
use std::alloc::Global;
use std::marker::Model;
use thiserror::Error;

/// The name of a file: 1 to 200 bytes, each a letter, a digit or one of `.`, `_`, `-`, `%`, the first not `.`.
#[derive(Debug, Drop)]
pub struct Name {
    bytes: Bytes,
}

impl Model for Name {
    ghost use Rattle.std.specs.Prelude.{List, ℕ};
    ghost use Rattle.h5_base.specs.Names.{IsName};

    ghost Value = { List ℕ };

    ghost view = { λ n. n.bytes };

    ghost invariant = { λ n. IsName n.bytes };
}

/// Why there is no name.
#[derive(Clone, Copy, Debug, PartialEq, Eq, Error)]
pub enum NameStop {
    #[error("not a name")]
    NotName,
    #[error("out of memory")]
    NoMemory,
}

impl Name {
    /// A copy of the text, where it is a name.
    pub fn new(alloc: Global, text: &str) -> Result<Name, NameStop>
        ensures ok { IfOk result (λ n. n ≡ text.now) }
        ensures is_name { IfOk result IsName }
        ensures not_name { (result ≡ Err NameStop.NotName) ↔ (¬ IsName text.now) }
    {
        let bytes = text.as_bytes();
        if !reads_as_name(bytes) {
            return Err(NameStop::NotName);
        }
        match Bytes::from_slice(alloc, bytes) {
            Ok(bytes) => Ok(Name { bytes }),
            Err(NoMemory) => Err(NameStop::NoMemory),
        }
    }

    /// A copy of bytes that are known to be a name.
    pub fn from_slice(alloc: Global, text: &[u8]) -> Result<Name, NoMemory>
        requires { IsName text.now }
        ensures { IfOk result (λ n. n ≡ text.now) }
    {
        let bytes = Bytes::from_slice(alloc, text)?;
        Ok(Name { bytes })
    }

    pub fn as_slice(&self) -> &[u8]
        ensures bytes { result.now ≡ self.now }
        ensures name { IsName self.now }
    {
        self.bytes.as_slice()
    }
}

fn is_of_name(byte: u8) -> bool
    ensures { result ≡ is_name_byte byte }
{
    byte.is_ascii_alphanumeric() || byte == b'.' || byte == b'_' || byte == b'-' || byte == b'%'
}

fn reads_as_name(bytes: &[u8]) -> bool
    ensures { IsTrue result ↔ IsName bytes.now }
{
    if bytes.is_empty() || bytes.len() > 200 || bytes[0] == b'.' {
        return false;
    }
    bytes.iter().all(|b| is_of_name(*b))
}
