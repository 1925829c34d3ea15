ghost use Rattle.std.specs.Prelude.{◌≡◌, ◌==◌, not, List, ℕ, IfOk, Err};
ghost use Rattle.std.specs.List.{AllZip, list_all};
ghost use Rattle.script.specs.Words.{split_on};
ghost use Rattle.script.specs.Names.{is_named, IsName, IsPath};
ghost use Rattle.script.specs.Line.{admits, can_be_made, IsPathThat};

use crate::Path;
use crate::stop::LineStop;
use crate::symbols::{Within, read_text};
use crate::words::split;
use h5_base::{Bytes, LinkName};
use std::alloc::Global;

/// Neither empty nor `.`.
fn is_named(bytes: &[u8]) -> bool
    ensures { result ≡ is_named bytes.now }
{
    match bytes {
        [] => false,
        [c] => *c != b'.',
        [_, _, ..] => true,
    }
}

/// The name that the text spells.
fn read_name(alloc: Global, text: &[u8]) -> Result<LinkName, LineStop>
    ensures found { IfOk result (λ n. IsName text.now n) }
    ensures bad { result ≡ Err LineStop.BadLine → (n : List ℕ) → IsName text.now n → ⊥ }
{
    let bytes = read_text(alloc, Within::Path, text)?;
    if !is_named(&bytes) {
        return Err(LineStop::BadLine);
    }
    Ok(LinkName::from_bytes(Bytes::from_vec(bytes)))
}

fn read_names(alloc: Global, text: &[u8]) -> Result<Vec<LinkName>, LineStop>
    ensures found { IfOk result (λ v. AllZip IsName (split_on 47 text.now) v.items) }
    ensures bad { result ≡ Err LineStop.BadLine → (p : List (List ℕ)) → AllZip IsName (split_on 47 text.now) p → ⊥ }
{
    let pieces = split(alloc, b'/', text)?;
    let mut names = Vec::new(alloc);
    for piece in &pieces {
        let name = read_name(alloc, *piece)?;
        names.push(name)?;
    }
    Ok(names)
}

/// The path that the word spells.
pub(crate) fn read_path(alloc: Global, word: &[u8]) -> Result<Path, LineStop>
    ensures found { IfOk result (λ p. IsPath word.now p) }
    ensures bad { result ≡ Err LineStop.BadLine → (p : List (List ℕ)) → IsPath word.now p → ⊥ }
{
    match word {
        [b'/'] => Ok(Path::from_names(h5_base::List::from_vec(Vec::new(alloc)))),
        [b'/', text @ ..] => {
            let names = read_names(alloc, text)?;
            Ok(Path::from_names(h5_base::List::from_vec(names)))
        }
        _ => Err(LineStop::BadLine),
    }
}

/// What a command does at its path.
#[derive(Clone, Copy, Debug, PartialEq, Eq)]
pub(crate) enum Leads {
    /// It looks at what the path leads to.
    Anywhere,
    /// It removes the last link of the path.
    ToLink,
    /// It makes the last link of the path.
    ToNewLink,
}

/// Whether no byte is 0.
fn has_no_zero(name: &[u8]) -> bool
    ensures { result ≡ list_all (λ b. not (b == 0)) name.now }
{
    name.iter().all(|b| *b != 0)
}

/// Whether a command may make a link of this name.
fn can_be_made(name: &[u8]) -> bool
    ensures { result ≡ can_be_made name.now }
{
    name.len() <= 255 && has_no_zero(name)
}

/// Whether the command may have this path.
fn admits(leads: Leads, names: &[LinkName]) -> bool
    ensures { result ≡ admits leads names.now }
{
    match leads {
        Leads::Anywhere => true,
        Leads::ToLink => names.len() != 0,
        Leads::ToNewLink => match names.last() {
            Some(name) => can_be_made(name.as_slice()),
            None => false,
        },
    }
}

/// The path that the word spells, where the command may have it.
pub(crate) fn read_path_that(alloc: Global, leads: Leads, word: &[u8]) -> Result<Path, LineStop>
    ensures found { IfOk result (λ p. IsPathThat leads word.now p) }
    ensures bad { result ≡ Err LineStop.BadLine → (p : List (List ℕ)) → IsPathThat leads word.now p → ⊥ }
{
    let path = read_path(alloc, word)?;
    if !admits(leads, path.as_slice()) {
        return Err(LineStop::BadLine);
    }
    Ok(path)
}
