ghost use Rattle.std.specs.Prelude.{◌≡◌, length};

use h5_base::{LinkName, List};
use std::marker::Model;

/// The names that lead from the root group to an object: none for the root itself.
#[derive(Debug, Drop)]
pub struct Path {
    names: List<LinkName>,
}

impl Model for Path {
    ghost use Rattle.std.specs.Prelude.{List, ℕ};

    ghost Value = { List (List ℕ) };

    ghost view = { λ p. p.names };
}

impl Path {
    /// The path of these names, which takes no memory.
    pub fn from_names(names: List<LinkName>) -> Path
        ensures { result ≡ names }
    {
        Path { names }
    }

    pub fn as_slice(&self) -> &[LinkName]
        ensures { result.now ≡ self.now }
    {
        self.names.as_slice()
    }

    pub fn len(&self) -> usize
        ensures { result ≡ length self.now }
    {
        self.names.len()
    }
}
