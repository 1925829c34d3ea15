use crate::differing::Difference;
use crate::edits::edit;
use crate::following::{Case, Place};
use crate::items::split_word;
use crate::named::{Named, place_of};
use crate::rows::{Block, Line, columns, fill_in, first_column, range};
use crate::stop::Stop;
use std::alloc::Global;
use std::mem::replace;

/// All cases of the files that are given, and what was found so far.
#[derive(Drop)]
pub struct Suite {
    rt: HostRuntime,
    alloc: Global,
    /// The name of the case file that is read.
    file: String,
    named: Vec<Named>,
    only: Option<String>,
    ran: u64,
    differ: u64,
}

impl Suite {
    /// All cases, or those of one name alone.
    pub fn new(rt: HostRuntime, only: Option<String>) -> Suite {
        let alloc = rt.alloc();
        Suite {
            rt,
            alloc,
            file: String::new(alloc),
            named: Vec::new(alloc),
            only,
            ran: 0,
            differ: 0,
        }
    }

    /// How many cases were run.
    pub fn ran(&self) -> u64 {
        self.ran
    }

    /// How many cases differ from what was wanted, and how many lines couldn't be followed.
    pub fn differ(&self) -> u64 {
        self.differ
    }

    // Tells a line that can't be followed.
    fn tell(&mut self, line: Line<'_>, stop: &Stop) -> Result<(), Stop> {
        self.differ = self.differ.saturating_add(1);
        let (file, at, text, why) = (self.file.as_str(), line.at, line.text, stop.why());
        println!(self.rt; "{file}:{at}: {text}: {why}")?;
        Ok(())
    }

    // Tells a line that can't be followed, where that is so.
    fn check(&mut self, line: Line<'_>, done: Result<(), Stop>) -> Result<bool, Stop> {
        match done {
            Ok(()) => Ok(true),
            Err(stop) => {
                self.tell(line, &stop)?;
                Ok(false)
            }
        }
    }

    /// Runs the cases of a file.
    pub fn run_file(&mut self, name: String, text: &str) -> Result<(), Stop> {
        self.file = name;
        let mut block = Block::new(self.alloc, Line { at: 0, text: "" });
        for (i, text) in text.lines().enumerate() {
            let at = i.saturating_add(1);
            let line = Line { at, text };
            let (word, _) = split_word(text);
            if word == "case" || word == "bytes" {
                let done = replace(&mut block, Block::new(self.alloc, line));
                self.run_block(&done)?;
            } else {
                block.add(line)?;
            }
        }
        self.run_block(&block)
    }

    fn run_block(&mut self, block: &Block<'_>) -> Result<(), Stop> {
        let (word, name) = split_word(block.head.text);
        match word {
            "case" => self.run_rows(block, name),
            "bytes" => self.define(block, name),
            _ => match block.lines.first() {
                Some(line) => self.tell(*line, &Stop::Wrong("before the first case")),
                None => Ok(()),
            },
        }
    }

    // `bytes NAME`
    fn define(&mut self, block: &Block<'_>, name: &str) -> Result<(), Stop> {
        if block.has_rows {
            return self.tell(block.head, &Stop::Wrong("rows of a definition"));
        }
        if name.is_empty() || place_of(self.named.as_slice(), name).is_some() {
            return self.tell(block.head, &Stop::Wrong("not a new name"));
        }
        let mut made = Named::new(self.alloc, name)?;
        for line in &block.lines {
            let named = self.named.as_slice();
            let done = edit(&self.rt, line.text, named, &mut made.bytes);
            let _ = self.check(*line, done)?;
        }
        Ok(self.named.push(made)?)
    }

    // The case of each row, or the one case.
    fn run_rows(&mut self, block: &Block<'_>, name: &str) -> Result<(), Stop> {
        if !block.has_rows {
            let done = self.run_case(block, name, &[]);
            let _ = self.check(block.head, done)?;
            return Ok(());
        }
        if block.rows.is_empty() {
            return self.tell(block.head, &Stop::Wrong("no rows"));
        }
        for row in &block.rows {
            let done = self.run_row(block, name, row.text);
            let _ = self.check(*row, done)?;
        }
        Ok(())
    }

    // The case of a row, or those of a row of numbers.
    fn run_row(&mut self, block: &Block<'_>, name: &str, row: &str) -> Result<(), Stop> {
        let first = first_column(row);
        let Some((low, high)) = range(first)? else {
            let first = String::from_str(self.alloc, first)?;
            return self.run_columns(block, name, row, first);
        };
        for n in low..high.saturating_add(1) {
            let first = format!(in self.alloc; "{n}")?;
            self.run_columns(block, name, row, first)?;
        }
        Ok(())
    }

    fn run_columns(
        &mut self,
        block: &Block<'_>,
        name: &str,
        row: &str,
        first: String,
    ) -> Result<(), Stop> {
        let list = columns(self.alloc, row, first)?;
        self.run_case(block, name, list.as_slice())
    }

    fn is_asked(&self, name: &str) -> bool {
        match &self.only {
            Some(only) => only.as_str() == name,
            None => true,
        }
    }

    // Runs a case. Where one alone is asked for, those that keep bytes are run too, but not counted.
    fn run_case(&mut self, block: &Block<'_>, name: &str, columns: &[String]) -> Result<(), Stop> {
        let name = fill_in(self.alloc, name, columns)?;
        let asked = self.is_asked(name.as_str());
        if !asked && !block.keeps {
            return Ok(());
        }
        self.ran = self.ran.saturating_add(u64::from(asked));
        let mut case = Case::new(self.rt.clone()?);
        if self.follow_lines(block, columns, &mut case)? {
            self.tell_found(name.as_str(), &case)?;
        }
        case.give_kept(&mut self.named)
    }

    // Follows a line of a case; one that can't be followed is told.
    fn follow_line(
        &mut self,
        line: Line<'_>,
        columns: &[String],
        case: &mut Case,
    ) -> Result<bool, Stop> {
        let done = follow(self.alloc, line, columns, self.named.as_slice(), case);
        self.check(line, done)
    }

    // Follows the lines of a case up to the first that can't be followed, which is told.
    fn follow_lines(
        &mut self,
        block: &Block<'_>,
        columns: &[String],
        case: &mut Case,
    ) -> Result<bool, Stop> {
        for line in &block.lines {
            if !self.follow_line(*line, columns, case)? {
                return Ok(false);
            }
        }
        let done = case.end();
        self.check(block.head, done)
    }

    // Tells the first difference of a case.
    fn tell_found(&mut self, name: &str, case: &Case) -> Result<(), Stop> {
        let Some((place, found)) = case.found() else {
            return Ok(());
        };
        self.differ = self.differ.saturating_add(1);
        let place = match place {
            Place::Memory => "in memory",
            Place::Folder => "over a folder",
        };
        match found.file {
            Some(file) => self.tell_file(name, place, case.file_name(file), found),
            None => self.tell_difference(name, place, found),
        }
    }

    fn tell_difference(&self, name: &str, place: &str, found: &Difference) -> Result<(), Stop> {
        let (file, line, what) = (self.file.as_str(), found.line, &found.what);
        println!(self.rt; "{file}:{line}: {name}, {place}: {what}")?;
        Ok(())
    }

    fn tell_file(&self, name: &str, place: &str, of: &str, found: &Difference) -> Result<(), Stop> {
        let (file, line, what) = (self.file.as_str(), found.line, &found.what);
        println!(self.rt; "{file}:{line}: {name}, {place}: {of}: {what}")?;
        Ok(())
    }
}

// Follows a line with its columns put in.
fn follow(
    alloc: Global,
    line: Line<'_>,
    columns: &[String],
    named: &[Named],
    case: &mut Case,
) -> Result<(), Stop> {
    let text = fill_in(alloc, line.text, columns)?;
    case.follow(line.at, text.as_str(), named)
}
