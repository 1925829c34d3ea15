ghost use Rattle.std.specs.Io.{ReadsAtMost};

use std::fs::{File, OpenOptions};
use std::io;
use std::io::ErrorKind;
use std::os::unix::fs::FileExt;

/// What this run has seen of a file.
#[derive(Drop)]
enum Seen {
    /// Nothing was asked of it yet.
    Nothing,
    /// There was no file by this name.
    Absent,
    Open(File),
}

/// A file of the folder, looked for once, when something is first asked of it. One that was absent then stays
/// so until this run makes it; that fails where another program has made it since.
#[derive(Drop)]
pub struct Entry {
    folder: &'static str,
    path: String,
    seen: Seen,
    /// This run made the file, and the folder wasn't synced since then.
    is_new: bool,
}

/// The file, where there is one. One that can't be written is opened for reading.
fn open_existing(rt: &HostRuntime, path: &str) -> io::Result<Seen> {
    match OpenOptions::new().read(true).write(true).open(rt, path) {
        Ok(file) => Ok(Seen::Open(file)),
        Err(e) if e.kind() == ErrorKind::NotFound => Ok(Seen::Absent),
        Err(e) if e.kind() == ErrorKind::PermissionDenied => Ok(Seen::Open(File::open(rt, path)?)),
        Err(e) => Err(e),
    }
}

/// Reads until `out` is full or the file ends.
fn read_whole(file: &File, at: u64, out: &mut [u8]) -> io::Result<usize>
    ensures bound { ReadsAtMost result out.new }
{
    let mut done = 0;
    for _ in 0..out.len() {
        if done >= out.len() {
            break;
        }
        match file.read_at(&mut out[done..], at.wrapping_add(done as u64)) {
            Ok(0) => break,
            Ok(n) => done += n,
            Err(e) if e.kind() == ErrorKind::Interrupted => {}
            Err(e) => return Err(e),
        }
    }
    Ok(done)
}

impl Entry {
    pub fn new(folder: &'static str, path: String) -> Entry {
        Entry {
            folder,
            path,
            seen: Seen::Nothing,
            is_new: false,
        }
    }

    // Opens the file where there is one.
    fn look(&mut self, rt: &HostRuntime) -> io::Result<()> {
        if matches!(&self.seen, Seen::Nothing) {
            self.seen = open_existing(rt, self.path.as_str())?;
        }
        Ok(())
    }

    // Makes the file where there is none.
    fn make(&mut self, rt: &HostRuntime) -> io::Result<()> {
        self.look(rt)?;
        if matches!(&self.seen, Seen::Absent) {
            self.seen = Seen::Open(File::create_new(rt, self.path.as_str())?);
            self.is_new = true;
        }
        Ok(())
    }

    /// The length in bytes, 0 where there is no file.
    pub fn len(&mut self, rt: &HostRuntime) -> io::Result<u64> {
        self.look(rt)?;
        match &self.seen {
            Seen::Open(file) => Ok(file.metadata()?.len()),
            Seen::Nothing | Seen::Absent => Ok(0),
        }
    }

    /// Gives the bytes from `at` on and their count, fewer than asked only at the end.
    pub fn read(&mut self, rt: &HostRuntime, at: u64, out: &mut [u8]) -> io::Result<usize>
        ensures bound { ReadsAtMost result out.new }
    {
        self.look(rt)?;
        match &self.seen {
            Seen::Open(file) => read_whole(file, at, out),
            Seen::Nothing | Seen::Absent => Ok(0),
        }
    }

    /// Writes all bytes from `at` on.
    pub fn write(&mut self, rt: &HostRuntime, at: u64, bytes: &[u8]) -> io::Result<()> {
        self.make(rt)?;
        match &self.seen {
            Seen::Open(file) => file.write_all_at(bytes, at),
            Seen::Nothing | Seen::Absent => Ok(()),
        }
    }

    /// Cuts the file, or lengthens it by zeros.
    pub fn set_len(&mut self, rt: &HostRuntime, n: u64) -> io::Result<()> {
        if n > 0 {
            self.make(rt)?;
        } else {
            self.look(rt)?;
        }
        match &self.seen {
            Seen::Open(file) => file.set_len(n),
            Seen::Nothing | Seen::Absent => Ok(()),
        }
    }

    /// Makes the file last, and its name where this run made it.
    pub fn sync(&mut self, rt: &HostRuntime) -> io::Result<()> {
        self.look(rt)?;
        match &self.seen {
            Seen::Open(file) => file.sync_all()?,
            Seen::Nothing | Seen::Absent => {}
        }
        if self.is_new {
            File::open(rt, self.folder)?.sync_all()?;
            self.is_new = false;
        }
        Ok(())
    }
}
