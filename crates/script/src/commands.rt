ghost use Rattle.std.specs.Prelude.{◌≡◌, List, ℕ, IfOk, Err, codes, []};
ghost use Rattle.object_model.specs.declared.command.Command.{Command};
ghost use Rattle.script.specs.Words.{Next};
ghost use Rattle.script.specs.Line.{IsPathThat, Reads};

use crate::arguments::{Place, take_box, take_path, take_sizes};
use crate::paths::Leads;
use crate::stop::LineStop;
use crate::values::read_values;
use crate::{Command, Path};
use h5_base::{Comment, CommentStop};
use std::alloc::Global;

/// The path that is all of the arguments.
fn read_path_alone(alloc: Global, leads: Leads, text: &[u8]) -> Result<Path, LineStop>
    ensures found { IfOk result (λ p. Next (IsPathThat leads) text.now p []) }
    ensures bad { result ≡ Err LineStop.BadLine → (p : List (List ℕ)) → Next (IsPathThat leads) text.now p [] → ⊥ }
{
    let (path, rest) = take_path(alloc, leads, text)?;
    if rest.len() != 0 {
        return Err(LineStop::BadLine);
    }
    Ok(path)
}

pub(crate) fn read_mkgroup(alloc: Global, text: &[u8]) -> Result<Command, LineStop>
    ensures found { IfOk result (λ c. Reads (codes "mkgroup") text.now c) }
    ensures bad { result ≡ Err LineStop.BadLine → (c : Command) → Reads (codes "mkgroup") text.now c → ⊥ }
{
    let path = read_path_alone(alloc, Leads::ToNewLink, text)?;
    Ok(Command::Mkgroup { path })
}

pub(crate) fn read_ls(alloc: Global, text: &[u8]) -> Result<Command, LineStop>
    ensures found { IfOk result (λ c. Reads (codes "ls") text.now c) }
    ensures bad { result ≡ Err LineStop.BadLine → (c : Command) → Reads (codes "ls") text.now c → ⊥ }
{
    let path = read_path_alone(alloc, Leads::Anywhere, text)?;
    Ok(Command::Ls { path })
}

pub(crate) fn read_stat(alloc: Global, text: &[u8]) -> Result<Command, LineStop>
    ensures found { IfOk result (λ c. Reads (codes "stat") text.now c) }
    ensures bad { result ≡ Err LineStop.BadLine → (c : Command) → Reads (codes "stat") text.now c → ⊥ }
{
    let path = read_path_alone(alloc, Leads::Anywhere, text)?;
    Ok(Command::Stat { path })
}

pub(crate) fn read_rm(alloc: Global, text: &[u8]) -> Result<Command, LineStop>
    ensures found { IfOk result (λ c. Reads (codes "rm") text.now c) }
    ensures bad { result ≡ Err LineStop.BadLine → (c : Command) → Reads (codes "rm") text.now c → ⊥ }
{
    let path = read_path_alone(alloc, Leads::ToLink, text)?;
    Ok(Command::Rm { path })
}

pub(crate) fn read_read(alloc: Global, text: &[u8]) -> Result<Command, LineStop>
    ensures found { IfOk result (λ c. Reads (codes "read") text.now c) }
    ensures bad { result ≡ Err LineStop.BadLine → (c : Command) → Reads (codes "read") text.now c → ⊥ }
{
    let (place, rest) = take_box(alloc, text)?;
    if rest.len() != 0 {
        return Err(LineStop::BadLine);
    }
    let Place { path, start, count } = place;
    Ok(Command::Read { path, start, count })
}

pub(crate) fn read_write(alloc: Global, text: &[u8]) -> Result<Command, LineStop>
    ensures found { IfOk result (λ c. Reads (codes "write") text.now c) }
    ensures bad { result ≡ Err LineStop.BadLine → (c : Command) → Reads (codes "write") text.now c → ⊥ }
{
    let (place, rest) = take_box(alloc, text)?;
    let values = read_values(alloc, rest)?;
    let Place { path, start, count } = place;
    Ok(Command::Write {
        path,
        start,
        count,
        values: h5_base::List::from_vec(values),
    })
}

pub(crate) fn read_extend(alloc: Global, text: &[u8]) -> Result<Command, LineStop>
    ensures found { IfOk result (λ c. Reads (codes "extend") text.now c) }
    ensures bad { result ≡ Err LineStop.BadLine → (c : Command) → Reads (codes "extend") text.now c → ⊥ }
{
    let (path, rest) = take_path(alloc, Leads::Anywhere, text)?;
    let (dims, rest) = take_sizes(alloc, false, rest)?;
    if rest.len() != 0 {
        return Err(LineStop::BadLine);
    }
    Ok(Command::Extend { path, dims })
}

pub(crate) fn read_flush(text: &[u8]) -> Result<Command, LineStop>
    ensures found { IfOk result (λ c. Reads (codes "flush") text.now c) }
    ensures bad { result ≡ Err LineStop.BadLine → (c : Command) → Reads (codes "flush") text.now c → ⊥ }
{
    if text.len() != 0 {
        return Err(LineStop::BadLine);
    }
    Ok(Command::Flush)
}

pub(crate) fn read_commit(alloc: Global, text: &[u8]) -> Result<Command, LineStop>
    ensures found { IfOk result (λ c. Reads (codes "commit") text.now c) }
    ensures bad { result ≡ Err LineStop.BadLine → (c : Command) → Reads (codes "commit") text.now c → ⊥ }
{
    match text {
        [b' ', comment @ ..] => match Comment::new(alloc, comment) {
            Ok(comment) => Ok(Command::Commit { comment }),
            Err(CommentStop::NotComment) => Err(LineStop::BadLine),
            Err(CommentStop::NoMemory) => Err(LineStop::NoMemory),
        },
        _ => Err(LineStop::BadLine),
    }
}
