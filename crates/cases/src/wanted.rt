use crate::items::{add_items, count, number, split_word};
use crate::named::{Named, bytes_of};
use crate::outcome::Outcome;
use crate::stop::Stop;
use mem_store::Op;
use std::alloc::Global;
use std::mem::replace;

/// What is wanted of a file.
#[derive(Drop)]
pub enum Check {
    Len(usize),
    At(usize, Vec<u8>),
    Is(Vec<u8>),
    Same,
}

/// A check of a file, with the line that it stands on.
#[derive(Drop)]
pub struct Left {
    pub line: usize,
    pub file: usize,
    pub check: Check,
}

/// So many calls of a kind may be made on a file.
#[derive(Clone, Copy)]
pub struct Limit {
    pub line: usize,
    pub file: usize,
    pub op: Op,
    pub most: u64,
}

/// What a file holds after the run is kept under a name.
#[derive(Drop)]
pub struct Keep {
    pub file: usize,
    pub name: String,
}

/// What is wanted of a run, with the lines that say so.
#[derive(Drop)]
pub struct Wanted {
    pub out: Vec<u8>,
    /// The line of the case file that each line of the output stands on.
    pub out_lines: Vec<usize>,
    pub err: Vec<u8>,
    /// One of these. Where there are several, neither output nor standard error is compared.
    pub statuses: Vec<u8>,
    pub unread: Option<usize>,
    /// The line of the status.
    pub line: usize,
    pub left: Vec<Left>,
    pub limits: Vec<Limit>,
    pub keeps: Vec<Keep>,
}

impl Wanted {
    /// Nothing yet.
    pub fn new(alloc: Global) -> Wanted {
        Wanted {
            out: Vec::new(alloc),
            out_lines: Vec::new(alloc),
            err: Vec::new(alloc),
            statuses: Vec::new(alloc),
            unread: None,
            line: 0,
            left: Vec::new(alloc),
            limits: Vec::new(alloc),
            keeps: Vec::new(alloc),
        }
    }

    /// A line of the output, with what ends it.
    pub fn add_out(&mut self, line: usize, text: &str, end: &str) -> Result<(), Stop> {
        self.out_lines.push(line)?;
        self.out.extend_from_slice(text.as_bytes())?;
        Ok(self.out.extend_from_slice(end.as_bytes())?)
    }

    /// A line of standard error.
    pub fn add_err(&mut self, text: &str) -> Result<(), Stop> {
        self.err.extend_from_slice(text.as_bytes())?;
        Ok(self.err.push(b'\n')?)
    }

    /// The status, or those of which it is one.
    pub fn set_statuses(&mut self, line: usize, text: &str) -> Result<(), Stop> {
        self.line = line;
        for word in text.split_ascii_whitespace() {
            let Ok(status) = word.parse::<u8>() else {
                return Err(Stop::Wrong("not a status"));
            };
            self.statuses.push(status)?;
        }
        if self.statuses.is_empty() {
            return Err(Stop::Wrong("not a status"));
        }
        Ok(())
    }

    /// How many bytes of the script are not taken.
    pub fn set_unread(&mut self, text: &str) -> Result<(), Stop> {
        self.unread = Some(count(text)?);
        Ok(())
    }

    /// So many calls of a kind, at most, on a file.
    pub fn add_limit(&mut self, line: usize, file: usize, op: Op, most: &str) -> Result<(), Stop> {
        let most = number(most)?;
        Ok(
            self.limits.push(Limit {
                line,
                file,
                op,
                most,
            })?,
        )
    }

    /// A check of a file.
    pub fn add_left(&mut self, line: usize, file: usize, check: Check) -> Result<(), Stop> {
        Ok(self.left.push(Left { line, file, check })?)
    }

    /// What a file holds is kept under a name.
    pub fn add_keep(&mut self, alloc: Global, file: usize, name: &str) -> Result<(), Stop> {
        let name = String::from_str(alloc, name)?;
        Ok(self.keeps.push(Keep { file, name })?)
    }

    /// Wants of the next run what this one gave. Files have to be as this one left them.
    pub fn repeat(&mut self, alloc: Global, got: &mut Outcome) -> Result<(), Stop> {
        self.statuses.clear();
        self.statuses.push(got.status)?;
        self.out = replace(&mut got.out, Vec::new(alloc));
        self.err = replace(&mut got.err, Vec::new(alloc));
        self.unread = Some(got.unread);
        self.left = Vec::new(alloc);
        self.limits = Vec::new(alloc);
        Ok(())
    }

    /// Whether something is kept under this name.
    pub fn keeps(&self, name: &str) -> bool {
        for keep in &self.keeps {
            if keep.name.as_str() == name {
                return true;
            }
        }
        false
    }
}

fn check_at(alloc: Global, line: &str, named: &[Named]) -> Result<Check, Stop> {
    let (place, rest) = split_word(line);
    let place = count(place)?;
    let mut bytes = Vec::new(alloc);
    add_items(alloc, rest, named, &mut bytes)?;
    Ok(Check::At(place, bytes))
}

fn check_is(alloc: Global, name: &str, named: &[Named]) -> Result<Check, Stop> {
    let bytes = bytes_of(named, name)?;
    Ok(Check::Is(Vec::from_slice(alloc, bytes)?))
}

/// What is wanted of a file: `len N`, `at N ITEMS`, `is NAME` or `same`.
pub fn check_of(alloc: Global, line: &str, named: &[Named]) -> Result<Check, Stop> {
    let (word, rest) = split_word(line);
    match word {
        "len" => Ok(Check::Len(count(rest)?)),
        "at" => check_at(alloc, rest, named),
        "is" => check_is(alloc, rest, named),
        "same" => Ok(Check::Same),
        _ => Err(Stop::Wrong("unknown word")),
    }
}
