//! Laws of what is mounted. Each function does nothing: its clauses are the laws.

ghost use Rattle.stack_mount.specs.Mounted.{OneVerdict, OneFault};

/// A file is refused for one reason or mounted, and never both.
pub fn one_verdict()
    ensures apart { OneVerdict }
    ensures one { OneFault }
{}
