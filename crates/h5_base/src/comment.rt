ghost use Rattle.std.specs.Prelude.{◌≡◌, ◌↔◌, IfOk, IsTrue};
ghost use Rattle.h5_base.specs.Names.{IsComment, is_printable};

use crate::{Bytes, NoMemory};
use std::alloc::Global;
use std::marker::Model;
use thiserror::Error;

/// The comment of a revision: 1 to 255 bytes from 0x20 to 0x7E.
#[derive(Debug, Drop)]
pub struct Comment {
    bytes: Bytes,
}

impl Model for Comment {
    ghost use Rattle.std.specs.Prelude.{List, ℕ};
    ghost use Rattle.h5_base.specs.Names.{IsComment};

    ghost Value = { List ℕ };

    ghost view = { λ c. c.bytes };

    ghost invariant = { λ c. IsComment c.bytes };
}

/// Why there is no comment.
#[derive(Clone, Copy, Debug, PartialEq, Eq, Error)]
pub enum CommentStop {
    #[error("not a comment")]
    NotComment,
    #[error("out of memory")]
    NoMemory,
}

impl Comment {
    /// A copy of these bytes, where they are a comment.
    pub fn new(alloc: Global, bytes: &[u8]) -> Result<Comment, CommentStop>
        ensures ok { IfOk result (λ c. c ≡ bytes.now) }
        ensures comment { IfOk result IsComment }
        ensures not_comment { (result ≡ Err CommentStop.NotComment) ↔ (¬ IsComment bytes.now) }
    {
        if !reads_as_comment(bytes) {
            return Err(CommentStop::NotComment);
        }
        match Bytes::from_slice(alloc, bytes) {
            Ok(bytes) => Ok(Comment { bytes }),
            Err(NoMemory) => Err(CommentStop::NoMemory),
        }
    }

    pub fn as_slice(&self) -> &[u8]
        ensures bytes { result.now ≡ self.now }
        ensures comment { IsComment self.now }
    {
        self.bytes.as_slice()
    }
}

fn reads_as_comment(bytes: &[u8]) -> bool
    ensures { IsTrue result ↔ IsComment bytes.now }
{
    if bytes.is_empty() || bytes.len() > 255 {
        return false;
    }
    bytes.iter().all(|b| 0x20 <= *b && *b <= 0x7E)
}
