use crate::differing::{Difference, compare};
use crate::edits::edit;
use crate::given::{Given, op_of};
use crate::in_folder::run_in_folder;
use crate::in_memory::run_in_memory;
use crate::items::split_word;
use crate::named::{Named, place_of};
use crate::outcome::Outcome;
use crate::stop::Stop;
use crate::wanted::{Wanted, check_of};
use h5_base::Name;
use std::alloc::Global;
use std::mem::replace;

/// Which lines of a run come next.
#[derive(Clone, Copy)]
enum Part {
    /// Those before its words.
    Before,
    /// The script with its answers, up to the status.
    Script,
    /// What else is wanted.
    After,
}

/// Where a run was made.
#[derive(Clone, Copy)]
pub enum Place {
    Memory,
    Folder,
}

/// A case whose lines are followed: its files as they stand, and the run whose lines are read.
#[derive(Drop)]
pub struct Case {
    rt: HostRuntime,
    alloc: Global,
    files: Vec<Named>,
    part: Part,
    given: Given,
    wanted: Wanted,
    in_memory_alone: bool,
    found: Option<(Place, Difference)>,
    kept: Vec<Named>,
}

impl Case {
    /// A case of which no line was followed.
    pub fn new(rt: HostRuntime) -> Case {
        let alloc = rt.alloc();
        Case {
            rt,
            alloc,
            files: Vec::new(alloc),
            part: Part::Before,
            given: Given::new(alloc),
            wanted: Wanted::new(alloc),
            in_memory_alone: false,
            found: None,
            kept: Vec::new(alloc),
        }
    }

    // The place of a file that the case names.
    fn file_of(&self, name: &str) -> Result<usize, Stop> {
        match place_of(self.files.as_slice(), name) {
            Some(file) => Ok(file),
            None => Err(Stop::Wrong("the case has no such file")),
        }
    }

    // The place of a file, which is empty where the case doesn't name it yet.
    fn file_for(&mut self, name: &str) -> Result<usize, Stop> {
        if let Some(file) = place_of(self.files.as_slice(), name) {
            return Ok(file);
        }
        let _name = Name::new(self.alloc, name)?;
        let file = self.files.len();
        self.files.push(Named::new(self.alloc, name)?)?;
        Ok(file)
    }

    // `file F` or `file F EDIT`.
    fn add_file(&mut self, line: &str, named: &[Named]) -> Result<(), Stop> {
        let (name, line) = split_word(line);
        let file = self.file_for(name)?;
        if line.is_empty() {
            return Ok(());
        }
        match self.files.get_mut(file) {
            Some(file) => edit(&self.rt, line, named, &mut file.bytes),
            None => Ok(()),
        }
    }

    // `words WORD ..`
    fn begin_run(&mut self, line: &str) -> Result<(), Stop> {
        self.part = Part::Script;
        self.given.add_words(self.alloc, line)
    }

    // `memory`
    fn stay_in_memory(&mut self) -> Result<(), Stop> {
        self.in_memory_alone = true;
        Ok(())
    }

    // `status S ..`
    fn end_script(&mut self, at: usize, line: &str) -> Result<(), Stop> {
        self.part = Part::After;
        self.wanted.set_statuses(at, line)
    }

    // `left F CHECK`
    fn add_left(&mut self, at: usize, line: &str, named: &[Named]) -> Result<(), Stop> {
        let (name, line) = split_word(line);
        let file = self.file_of(name)?;
        let check = check_of(self.alloc, line, named)?;
        self.wanted.add_left(at, file, check)
    }

    // `calls KIND F N`
    fn add_limit(&mut self, at: usize, line: &str) -> Result<(), Stop> {
        let (kind, line) = split_word(line);
        let op = op_of(kind)?;
        let (name, most) = split_word(line);
        let file = self.file_of(name)?;
        self.wanted.add_limit(at, file, op, most)
    }

    fn is_new(&self, name: &str, named: &[Named]) -> bool {
        !name.is_empty()
            && place_of(named, name).is_none()
            && place_of(self.kept.as_slice(), name).is_none()
            && !self.wanted.keeps(name)
    }

    // `keep F NAME`
    fn add_keep(&mut self, line: &str, named: &[Named]) -> Result<(), Stop> {
        let (file, name) = split_word(line);
        let file = self.file_of(file)?;
        if !self.is_new(name, named) {
            return Err(Stop::Wrong("not a new name"));
        }
        self.wanted.add_keep(self.alloc, file, name)
    }

    // A line before the words of a run.
    fn follow_before(&mut self, word: &str, rest: &str, named: &[Named]) -> Result<(), Stop> {
        match word {
            "file" => self.add_file(rest, named),
            "fail" => self.given.add_fail(self.alloc, rest),
            "room" => self.given.set_room(rest),
            "clock" => self.given.add_moments(rest),
            "memory" => self.stay_in_memory(),
            "words" => self.begin_run(rest),
            _ => Err(Stop::Wrong("unknown word")),
        }
    }

    // A line of the script, of its answer, or the status.
    fn follow_script(
        &mut self,
        at: usize,
        word: &str,
        rest: &str,
        named: &[Named],
    ) -> Result<(), Stop> {
        match word {
            ">" => self.given.add_line(rest, "\n"),
            ">-" => self.given.add_line(rest, ""),
            "script" => edit(&self.rt, rest, named, &mut self.given.script),
            "<" => self.wanted.add_out(at, rest, "\n"),
            "<-" => self.wanted.add_out(at, rest, ""),
            "status" => self.end_script(at, rest),
            _ => Err(Stop::Wrong("unknown word")),
        }
    }

    // What else is wanted, or the first line of the next run.
    fn follow_after(
        &mut self,
        at: usize,
        word: &str,
        rest: &str,
        named: &[Named],
    ) -> Result<(), Stop> {
        match word {
            "err" => self.wanted.add_err(rest),
            "unread" => self.wanted.set_unread(rest),
            "left" => self.add_left(at, rest, named),
            "calls" => self.add_limit(at, rest),
            "keep" => self.add_keep(rest, named),
            _ => {
                self.end_run()?;
                self.follow_before(word, rest, named)
            }
        }
    }

    /// Follows a line of the case.
    pub fn follow(&mut self, at: usize, line: &str, named: &[Named]) -> Result<(), Stop> {
        let (word, rest) = split_word(line);
        match self.part {
            Part::Before => self.follow_before(word, rest, named),
            Part::Script => self.follow_script(at, word, rest, named),
            Part::After => self.follow_after(at, word, rest, named),
        }
    }

    /// Ends the last run.
    pub fn end(&mut self) -> Result<(), Stop> {
        match self.part {
            Part::Before => Err(Stop::Wrong("the case ends without a run")),
            Part::Script => Err(Stop::Wrong("the case ends without a status")),
            Part::After => self.end_run(),
        }
    }

    // Makes the run whose lines were read, and compares; none after a difference.
    fn end_run(&mut self) -> Result<(), Stop> {
        let given = replace(&mut self.given, Given::new(self.alloc));
        let wanted = replace(&mut self.wanted, Wanted::new(self.alloc));
        self.part = Part::Before;
        if self.found.is_some() {
            return Ok(());
        }
        self.make_runs(given, wanted)
    }

    fn make_runs(&mut self, mut given: Given, mut wanted: Wanted) -> Result<(), Stop> {
        let limits = wanted.limits.as_slice();
        let mut got = run_in_memory(self.alloc, &mut given, self.files.as_slice(), limits)?;
        self.keep(&wanted, &got)?;
        let found = compare(self.alloc, &mut wanted, &mut got, self.files.as_slice());
        if let Some(found) = found {
            self.found = Some((Place::Memory, found));
        } else if !given.has_faults && !self.in_memory_alone {
            self.run_again(&given, &mut wanted, &mut got)?;
        }
        self.files = got.files;
        Ok(())
    }

    // Makes the run over a folder, which has to give the same as in memory.
    fn run_again(
        &mut self,
        given: &Given,
        wanted: &mut Wanted,
        got: &mut Outcome,
    ) -> Result<(), Stop> {
        wanted.repeat(self.alloc, got)?;
        let mut again = run_in_folder(&self.rt, given, self.files.as_slice())?;
        let found = compare(self.alloc, wanted, &mut again, got.files.as_slice());
        self.found = found.map(|found| (Place::Folder, found));
        Ok(())
    }

    fn keep(&mut self, wanted: &Wanted, got: &Outcome) -> Result<(), Stop> {
        for keep in &wanted.keeps {
            if let Some(file) = got.files.get(keep.file) {
                let bytes = file.bytes.as_slice();
                let kept = Named::copied(self.alloc, keep.name.as_str(), bytes)?;
                self.kept.push(kept)?;
            }
        }
        Ok(())
    }

    /// The first difference that was found, and where the run was made.
    pub fn found(&self) -> Option<&(Place, Difference)> {
        self.found.as_ref()
    }

    /// The name of the file at a place.
    pub fn file_name(&self, file: usize) -> &str {
        match self.files.get(file) {
            Some(file) => file.name.as_str(),
            None => "",
        }
    }

    /// Adds what the case keeps for later ones to a list.
    pub fn give_kept(&mut self, named: &mut Vec<Named>) -> Result<(), Stop> {
        for kept in replace(&mut self.kept, Vec::new(self.alloc)) {
            named.push(kept)?;
        }
        Ok(())
    }
}
