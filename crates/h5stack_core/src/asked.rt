ghost use Rattle.std.specs.Prelude.{◌≡◌, ◌⊎◌, ◌≤◌, None, Ok, Err, length, IfOk, IfErr, string_bytes};
ghost use Rattle.h5_base.specs.Names.{IsName};
ghost use Rattle.h5stack_core.specs.Words.{word_fault, asked_by, named, texts, file_of};
ghost use Rattle.h5stack_core.specs.declared.words.WordFault.{WordFault};

use crate::ending::Ending;
use crate::words::{asks_run, fault_of};
use h5_base::{Name, NoMemory};
use std::alloc::Global;

/// What the words ask for.
#[derive(Drop)]
pub enum Asked {
    /// The empty HDF5 file, written into a file.
    Create { file: Name },
    /// The run of a script over a file.
    Run { file: Name },
}

// The file that a `plain` word names.
fn file_in(word: &[u8]) -> &[u8]
    requires { 6 ≤ length word.now }
    ensures { result.now ≡ file_of word.now }
{
    &word[6..]
}

// The file that admitted words name.
#[tactic(auto, using(crate::proofs::WordsLemmas::second, crate::proofs::WordsLemmas::two_words))]
fn named_in(words: &Vec<String>) -> &[u8]
    requires { word_fault (texts words.now.items) ≡ None }
    ensures text { result.now ≡ named (texts words.now.items) }
    ensures name { IsName result.now }
{
    file_in(words[1].as_bytes())
}

/// Reads the words: what they ask for, their first fault, or want of memory.
#[tactic(auto, using(crate::proofs::WordsLemmas::asked_run, crate::proofs::WordsLemmas::asked_create, crate::proofs::WordsLemmas::asked_fault, crate::proofs::WordsLemmas::asked_none))]
pub fn read_words(alloc: Global, words: &Vec<String>) -> Result<Asked, Ending>
    ensures asked { IfOk result (λ asked. asked_by (texts words.now.items) ≡ Ok asked) }
    ensures first { IfErr result (λ ending. (fault : WordFault) → asked_by (texts words.now.items) ≡ Err fault
        → ending ≡ Ending.Words fault) }
    ensures fault { IfErr result (λ ending. (ending ≡ Ending.Memory)
        ⊎ ((fault : WordFault) × (ending ≡ Ending.Words fault) × (asked_by (texts words.now.items) ≡ Err fault))) }
{
    if let Some(fault) = fault_of(words) {
        return Err(Ending::Words { fault });
    }
    let Ok(file) = Name::from_slice(alloc, named_in(words)) else {
        return Err(Ending::Memory);
    };
    if asks_run(words) {
        Ok(Asked::Run { file })
    } else {
        Ok(Asked::Create { file })
    }
}
