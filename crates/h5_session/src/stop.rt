ghost use Rattle.std.specs.Prelude.{◌≡◌};
ghost use Rattle.h5_session.specs.Stops.{of_plan, of_write};

use block_space::PlanStop;
use h5_base::BlockKind;
use outside::WriteStop;
use thiserror::Error;

/// Why a line isn't answered.
#[derive(Clone, Copy, Debug, PartialEq, Eq, Error)]
pub enum StepStop {
    /// A call of the space failed.
    #[error("fault")]
    Failed,
    /// A call failed on a copy that a strict splitter keeps.
    #[error("fault of the copy")]
    WoFailed,
    #[error("out of memory")]
    NoMemory,
    /// A block that is read again spells its kind no longer; never where the space tells its bytes.
    #[error("malformed")]
    Malformed { at: u64, kind: BlockKind },
}

/// Why nothing is planned.
pub(crate) fn of_plan(stop: PlanStop) -> StepStop
    ensures { result ≡ of_plan stop }
{
    match stop {
        PlanStop::Failed => StepStop::Failed,
        PlanStop::NoMemory => StepStop::NoMemory,
        PlanStop::Malformed { at, kind } => StepStop::Malformed { at, kind },
    }
}

/// Why something isn't written.
pub(crate) fn of_write(stop: WriteStop) -> StepStop
    ensures { result ≡ of_write stop }
{
    match stop {
        WriteStop::Failed => StepStop::Failed,
        WriteStop::WoFailed => StepStop::WoFailed,
    }
}
