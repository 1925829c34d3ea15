use thiserror::Error;

/// What a script that was read to its end came to.
#[derive(Clone, Copy, Debug, PartialEq, Eq)]
pub enum Ended {
    /// Each line was done.
    AllDone,
    /// Some line was refused.
    SomeNot,
}

/// Why a script wasn't answered to its end.
#[derive(Clone, Copy, Debug, PartialEq, Eq, Error)]
pub enum ScriptStop {
    /// A fault of the input.
    #[error("fault: input")]
    Input,
    /// A fault of the output.
    #[error("fault: output")]
    Output,
    /// 4,294,967,296 bytes of the script were taken.
    #[error("too long")]
    Limit,
    #[error("out of memory")]
    Memory,
}
