ghost use Rattle.std.specs.Prelude.{◌≡◌};
ghost use Rattle.script.specs.declared.stop.LineStop.TheVariants.{NoMemory};

use std::alloc::{AllocError, AllocFailed};
use thiserror::Error;

/// Why a line gives no command.
#[derive(Clone, Copy, Debug, PartialEq, Eq, Error)]
pub enum LineStop {
    /// The line isn't spelled as the language has it.
    #[error("bad line")]
    BadLine,
    #[error("out of memory")]
    NoMemory,
}

impl From<AllocError> for LineStop {
    ghost from_gives = { λ _ e. e ≡ NoMemory };

    fn from(_e: AllocError) -> LineStop {
        LineStop::NoMemory
    }
}

impl<T: Drop> From<AllocFailed<T>> for LineStop {
    ghost from_gives = { λ _ e. e ≡ NoMemory };

    fn from(_e: AllocFailed<T>) -> LineStop {
        LineStop::NoMemory
    }
}

impl From<h5_base::NoMemory> for LineStop {
    ghost from_gives = { λ _ e. e ≡ NoMemory };

    fn from(_e: h5_base::NoMemory) -> LineStop {
        LineStop::NoMemory
    }
}
