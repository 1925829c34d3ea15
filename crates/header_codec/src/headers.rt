ghost use Rattle.std.specs.Prelude.{◌≡◌, IfSome, Some};
ghost use Rattle.header_codec.specs.declared.types.Prefix.{Prefix};
ghost use Rattle.header_codec.specs.declared.types.Message.{Message};
ghost use Rattle.header_codec.specs.Headers.{SpellsPrefix, SpellsMessage};

use crate::types::{Message, Prefix};
use h5_base::{u16_of, u32_of};

/// Reads the prefix that begins the bytes: 16 of them, of version 1. None where there are fewer, or of another version.
/// (HDF5 File Format Specification 3.0, IV.A.1.a.)
pub fn read_prefix(bytes: &[u8]) -> Option<Prefix>
    // What is read is spelled.
    ensures found { IfSome result (λ p. SpellsPrefix p bytes.now) }
    // What is spelled is read.
    ensures only { (p : Prefix) → SpellsPrefix p bytes.now → result ≡ Some p }
{
    if bytes.len() < 16 || bytes[0] != 1 {
        return None;
    }
    Some(Prefix {
        messages: u16_of(bytes, 2),
        links: u32_of(bytes, 4),
        size: u32_of(bytes, 8),
    })
}

/// Reads where the message lies that begins at `at`. None where fewer than 8 bytes follow, or the size of its data is
/// no multiple of 8 or passes the end. (HDF5 File Format Specification 3.0, IV.A.2.)
pub fn read_message(bytes: &[u8], at: usize) -> Option<Message>
    // What is read is spelled.
    ensures found { IfSome result (λ m. SpellsMessage m bytes.now at) }
    // What is spelled is read.
    ensures only { (m : Message) → SpellsMessage m bytes.now at → result ≡ Some m }
{
    if bytes.len() < at || bytes.len() - at < 8 {
        return None;
    }
    let len = usize::from(u16_of(bytes, at + 2));
    if len % 8 != 0 || bytes.len() - at - 8 < len {
        return None;
    }
    Some(Message {
        kind: u16_of(bytes, at),
        flags: bytes[at + 4],
        at: at + 8,
        len,
    })
}
