ghost use Rattle.std.specs.Prelude.{◌≡◌, ◌⊎◌, ◌++◌, IsTrue, IfOk, string_bytes};
ghost use Rattle.outside.specs.Causes.{Rose};
ghost use Rattle.h5stack_core.specs.Words.{usage_line};
ghost use Rattle.h5stack_core.specs.Endings.{IsRefusal, told};

use crate::ending::Ending;
use crate::words::WordFault;
use outside::Sink;
use script_lines::print;
use std::alloc::{AllocError, Global};

#[tactic(auto, unfolding(crate::specs::Words::usage_line))]
fn usage(alloc: Global, fault: WordFault) -> Result<String, AllocError>
    ensures { IfOk result (λ text. string_bytes text ≡ usage_line fault) }
{
    match fault {
        WordFault::Unknown { word } => format!(in alloc; "usage: unknown {word}\n"),
        WordFault::NotBuilt { word } => format!(in alloc; "usage: not-built {word}\n"),
        WordFault::Order { word } => format!(in alloc; "usage: order {word}\n"),
        WordFault::Name { word } => format!(in alloc; "usage: name {word}\n"),
        WordFault::Missing => String::from_str(alloc, "usage: missing\n"),
    }
}

// The line of an ending that tells neither words nor a file.
fn fixed_line(ending: Ending) -> &'static [u8]
    requires { IsRefusal ending → ⊥ }
    ensures { result.now ≡ (told ending).line }
{
    match ending {
        Ending::Store => b"fault: store\n",
        Ending::Input => b"fault: input\n",
        Ending::Output => b"fault: output\n",
        Ending::Memory | Ending::ScriptMemory => b"fault: memory\n",
        Ending::Limit => b"limit: script\n",
        _ => b"",
    }
}

/// Tells on standard error how the program ended. Where there is no memory for the line of a refusal, that is told in
/// its place, and is how the program ended. A fault there changes nothing.
pub fn tell<E: Sink>(alloc: Global, ending: Ending, err: &mut E) -> Ending
    ensures ended { (result ≡ ending) ⊎ (IsRefusal ending × (result ≡ Ending.Memory)) }
    ensures told { IsTrue E.tells → (Rose (E.faults err.old) (E.faults err.new) → ⊥)
        → E.written err.new ≡ E.written err.old ++ (told result).line }
{
    let line = match ending {
        Ending::Words { fault } => usage(alloc, fault),
        Ending::Refused { why } => why.line(alloc),
        _ => {
            let _ = print(err, fixed_line(ending));
            return ending;
        }
    };
    match line {
        Ok(text) => {
            let _ = print(err, text.as_bytes());
            ending
        }
        Err(_) => {
            let _ = print(err, b"fault: memory\n");
            Ending::Memory
        }
    }
}
