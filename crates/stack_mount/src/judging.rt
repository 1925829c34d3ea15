ghost use Rattle.std.specs.Prelude.{◌≡◌, ◌≤◌, ℕ, IsTrue, IfOk, IfErr, OnOk, IsErrOf};
ghost use Rattle.h5_base.specs.declared.extent.MemClass.TheVariants as class;
ghost use Rattle.outside.specs.Causes.{OneRose};
ghost use Rattle.super_codec.specs.Super.{Spells};
ghost use Rattle.file_model.specs.Holds.{super_bytes_of};
ghost use Rattle.file_model.specs.Laws.{one_region};
ghost use Rattle.file_model.specs.RefusedTree.{of_super};
ghost use Rattle.h5_base.specs.declared.refusal.Refusal.{Refusal};
ghost use Rattle.stack_mount.specs.Mounted.{IsRefused, IsAdmitted, LacksSuper};

use h5_base::{BlockKind, MemClass, Refusal, Stop};
use outside::{Failed, Space};
use super_codec::{SuperStop, Superblock, read_super};

// Why a file is refused whose bytes spell no superblock.
fn refusal_of(stop: SuperStop) -> Refusal
    ensures { result ≡ of_super stop }
{
    match stop {
        SuperStop::NotThis => Refusal::Malformed {
            at: 0,
            kind: BlockKind::Super,
        },
        SuperStop::Unsupported { what } => Refusal::Unsupported { what },
    }
}

// The superblock that the bytes below the end begin with.
fn read_front<V: Space>(space: &mut V, end: u64) -> Result<Superblock, Stop>
    requires { V.Stands space.old }
    ensures found { IsTrue V.tells → IfOk result
        (λ s. Spells s (super_bytes_of (V.view space.old).array (one_region end))) }
    ensures lacks { IsTrue V.tells → IfErr result (λ stop. (why : Refusal) → stop ≡ Stop.Refused why
        → LacksSuper (V.view space.old).array end why) }
    ensures failed { IsErrOf result Stop.Failed → OneRose (V.faults space.old) (V.faults space.new) }
    ensures calm { ¬ IsErrOf result Stop.Failed → V.faults space.new ≡ V.faults space.old }
    ensures memory { IsErrOf result Stop.NoMemory → ⊥ }
    ensures alike { V.Alike space.old space.new }
{
    let mut buffer = [0; 100];
    let front = &mut buffer[..end.min(100) as usize];
    match space.read(0, front) {
        Ok(()) => {}
        Err(Failed) => return Err(Stop::Failed),
    }
    match read_super(front) {
        Ok(superblock) => Ok(superblock),
        Err(stop) => Err(Stop::Refused {
            why: refusal_of(stop),
        }),
    }
}

/// Judges the file in a space whose first region begins at 0: whether it is empty, its superblock, and its end. One
/// read.
pub(crate) fn judge<V: Space>(space: &mut V) -> Result<(), Stop>
    requires { V.Stands space.old }
    ensures admitted { IsTrue V.tells → OnOk result
        (IsAdmitted (V.view space.old).array ((V.view space.old).ends class.Super)) }
    ensures refused { IsTrue V.tells → IfErr result (λ stop. (why : Refusal) → stop ≡ Stop.Refused why
        → IsRefused (V.view space.old).array ((V.view space.old).ends class.Super) why) }
    ensures failed { IsErrOf result Stop.Failed → OneRose (V.faults space.old) (V.faults space.new) }
    ensures calm { ¬ IsErrOf result Stop.Failed → V.faults space.new ≡ V.faults space.old }
    ensures memory { IsErrOf result Stop.NoMemory → ⊥ }
    ensures alike { V.Alike space.old space.new }
{
    let end = space.end(MemClass::Super);
    if end == 0 {
        return Err(Stop::Refused {
            why: Refusal::Absent,
        });
    }
    let superblock = match read_front(space, end) {
        Ok(superblock) => superblock,
        Err(fault) => return Err(fault),
    };
    if end < superblock.end_at {
        let stored = superblock.end_at;
        return Err(Stop::Refused {
            why: Refusal::Truncated {
                actual: end,
                stored,
            },
        });
    }
    Ok(())
}
