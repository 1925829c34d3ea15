ghost use Rattle.std.specs.Prelude.{◌≡◌, ◌+◌, ◌<◌, OnOk, OnErr, IfErr};
ghost use Rattle.file_model.specs.Limits.{most_texts};

use h5_base::Stop;

/// The bytes of all names and soft links' values of a file that are kept.
const MOST_TEXTS: u64 = 268_435_456;

/// How many more bytes of the names and the soft links' values of a file are kept. Texts of a local heap may overlap,
/// so that a small file can tell names of many gigabytes.
#[derive(Debug, Drop)]
pub struct TextBudget {
    /// In bytes.
    pub left: u64,
}

impl TextBudget {
    /// That of a file of which no name is kept yet: 268,435,456 bytes.
    pub fn whole() -> TextBudget
        ensures { result.left ≡ most_texts }
    {
        TextBudget { left: MOST_TEXTS }
    }

    /// Takes so many bytes. Where fewer are left, it takes none and answers want of memory.
    pub(crate) fn take(&mut self, len: usize) -> Result<(), Stop>
        ensures taken { OnOk result (len + self.new.left ≡ self.old.left) }
        ensures short { OnErr result (self.old.left < len) }
        ensures same { OnErr result (self.new.left ≡ self.old.left) }
        ensures memory { IfErr result (λ stop. stop ≡ Stop.NoMemory) }
    {
        let len = len as u64;
        if self.left < len {
            return Err(Stop::NoMemory);
        }
        self.left -= len;
        Ok(())
    }
}
