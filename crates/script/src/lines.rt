ghost use Rattle.std.specs.Prelude.{◌≡◌, ◌≢◌, IfOk, IfSome, IsNone, Err};
ghost use Rattle.object_model.specs.declared.command.Command.{Command};
ghost use Rattle.script.specs.declared.lines.Key.{Key};
ghost use Rattle.script.specs.Line.{key_word, IsLine, Reads};

use crate::Command;
use crate::commands::{
    read_commit, read_extend, read_flush, read_ls, read_mkgroup, read_read, read_rm, read_stat,
    read_write,
};
use crate::mkdata::read_mkdata;
use crate::stop::LineStop;
use crate::words::{before_len, is_word};
use std::alloc::Global;

/// The bytes that a line may have.
const MOST_BYTES: usize = 65_536;

/// A command's word.
#[derive(Clone, Copy, Debug, PartialEq, Eq)]
pub(crate) enum Key {
    Mkgroup,
    Mkdata,
    Write,
    Read,
    Ls,
    Stat,
    Extend,
    Rm,
    Flush,
    Commit,
}

/// The command that has this word.
fn read_key(word: &[u8]) -> Option<Key>
    ensures found { IfSome result (λ k. word.now ≡ key_word k) }
    ensures bad { IsNone result → (k : Key) → word.now ≢ key_word k }
{
    if is_word(word, b"mkgroup") {
        return Some(Key::Mkgroup);
    }
    if is_word(word, b"mkdata") {
        return Some(Key::Mkdata);
    }
    if is_word(word, b"write") {
        return Some(Key::Write);
    }
    if is_word(word, b"read") {
        return Some(Key::Read);
    }
    if is_word(word, b"ls") {
        return Some(Key::Ls);
    }
    if is_word(word, b"stat") {
        return Some(Key::Stat);
    }
    if is_word(word, b"extend") {
        return Some(Key::Extend);
    }
    if is_word(word, b"rm") {
        return Some(Key::Rm);
    }
    if is_word(word, b"flush") {
        return Some(Key::Flush);
    }
    if is_word(word, b"commit") {
        return Some(Key::Commit);
    }
    None
}

/// The command of a word and its arguments.
fn read_command(alloc: Global, word: &[u8], text: &[u8]) -> Result<Command, LineStop>
    ensures found { IfOk result (λ c. Reads word.now text.now c) }
    ensures bad { result ≡ Err LineStop.BadLine → (c : Command) → Reads word.now text.now c → ⊥ }
{
    match read_key(word) {
        Some(Key::Mkgroup) => read_mkgroup(alloc, text),
        Some(Key::Mkdata) => read_mkdata(alloc, text),
        Some(Key::Write) => read_write(alloc, text),
        Some(Key::Read) => read_read(alloc, text),
        Some(Key::Ls) => read_ls(alloc, text),
        Some(Key::Stat) => read_stat(alloc, text),
        Some(Key::Extend) => read_extend(alloc, text),
        Some(Key::Rm) => read_rm(alloc, text),
        Some(Key::Flush) => read_flush(text),
        Some(Key::Commit) => read_commit(alloc, text),
        None => Err(LineStop::BadLine),
    }
}

/// The command that a line spells, without its LF; `BadLine` exactly where it spells none, as one above 65,536 bytes.
pub fn read_line(alloc: Global, line: &[u8]) -> Result<Command, LineStop>
    // What is read is spelled.
    ensures found { IfOk result (λ c. IsLine line.now c) }
    // A bad line spells nothing.
    ensures bad { result ≡ Err LineStop.BadLine → (c : Command) → IsLine line.now c → ⊥ }
{
    if line.len() > MOST_BYTES {
        return Err(LineStop::BadLine);
    }
    let len = before_len(line, b' ');
    read_command(alloc, &line[..len], &line[len..])
}
