ghost use Rattle.std.specs.Prelude.{◌≡◌, ◌++◌, IsTrue, OnOk};
ghost use Rattle.outside.specs.Causes.{HasCause};
ghost use Rattle.script_lines.specs.Written.{WrittenInPart};

use outside::{Failed, Sink};

/// Writes a whole text, in as many pieces as the sink takes.
pub fn print<O: Sink>(out: &mut O, text: &[u8]) -> Result<(), Failed>
    ensures ok { IsTrue O.tells → OnOk result (O.written out.new ≡ O.written out.old ++ text.now) }
    ensures prefix { IsTrue O.tells → WrittenInPart text.now (O.written out.old) (O.written out.new) }
    ensures cause { HasCause (O.faults out.old) (O.faults out.new) result }
{
    let mut done = 0;
    while done < text.len() {
        done += out.write(&text[done..])?;
    }
    Ok(())
}
