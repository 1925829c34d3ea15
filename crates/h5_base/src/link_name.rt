ghost use Rattle.std.specs.Prelude.{◌≡◌, IfOk};

use crate::{Bytes, NoMemory};
use std::alloc::Global;
use std::marker::Model;

/// The name of a link within a group: any bytes, in the order that the file has them.
#[derive(Debug, Drop)]
pub struct LinkName {
    bytes: Bytes,
}

impl Model for LinkName {
    ghost use Rattle.std.specs.Prelude.{List, ℕ};

    ghost Value = { List ℕ };

    ghost view = { λ n. n.bytes };
}

impl LinkName {
    /// A copy of these bytes as a name.
    pub fn from_slice(alloc: Global, bytes: &[u8]) -> Result<LinkName, NoMemory>
        ensures { IfOk result (λ n. n ≡ bytes.now) }
    {
        let bytes = Bytes::from_slice(alloc, bytes)?;
        Ok(LinkName { bytes })
    }

    /// The bytes as a name, which takes no memory.
    pub fn from_bytes(bytes: Bytes) -> LinkName
        ensures { result ≡ bytes }
    {
        LinkName { bytes }
    }

    pub fn as_slice(&self) -> &[u8]
        ensures { result.now ≡ self.now }
    {
        self.bytes.as_slice()
    }
}
