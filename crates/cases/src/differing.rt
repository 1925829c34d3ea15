use crate::named::Named;
use crate::outcome::Outcome;
use crate::texts::Texts;
use crate::wanted::{Check, Left, Wanted};
use std::alloc::Global;
use std::fmt;
use std::mem::replace;

/// What differs: first what was wanted and then what the run gave.
#[derive(Drop)]
pub enum What {
    /// A text, by its kind.
    Text(&'static str, Texts),
    Status(Vec<u8>, u8),
    /// A number, by what it counts.
    Count(&'static str, u64, u64),
    /// The byte at an address, where there is one.
    Byte(usize, u8, Option<u8>),
}

/// The first difference of a run.
#[derive(Drop)]
pub struct Difference {
    /// The line of the case that says what was wanted.
    pub line: usize,
    /// The place of the file among those of the case, where one differs.
    pub file: Option<usize>,
    pub what: What,
}

fn show_statuses<W: fmt::Write>(f: &mut fmt::Formatter<W>, wanted: &[u8], got: u8) -> fmt::Result {
    write!(f, "status: wanted")?;
    for status in wanted {
        write!(f, " {}", *status)?;
    }
    write!(f, ", got {got}")
}

fn show_byte<W: fmt::Write>(
    f: &mut fmt::Formatter<W>,
    at: usize,
    wanted: u8,
    got: Option<u8>,
) -> fmt::Result {
    match got {
        Some(got) => write!(f, "at {at}: wanted {wanted:02X}, got {got:02X}"),
        None => write!(f, "at {at}: wanted {wanted:02X}, got the end"),
    }
}

impl fmt::Display for What {
    fn fmt<W: fmt::Write>(&self, f: &mut fmt::Formatter<W>) -> fmt::Result {
        match self {
            What::Text(kind, texts) => write!(f, "{kind}: {texts}"),
            What::Status(wanted, got) => show_statuses(f, wanted.as_slice(), *got),
            What::Count(kind, wanted, got) => write!(f, "{kind}: wanted {wanted}, got {got}"),
            What::Byte(at, wanted, got) => show_byte(f, *at, *wanted, *got),
        }
    }
}

// Takes two texts out of their places where they differ.
fn texts(alloc: Global, wanted: &mut Vec<u8>, got: &mut Vec<u8>) -> Option<Texts> {
    if wanted.as_slice() == got.as_slice() {
        return None;
    }
    Some(Texts {
        wanted: replace(wanted, Vec::new(alloc)),
        got: replace(got, Vec::new(alloc)),
    })
}

fn len_differs(wanted: usize, got: usize) -> What {
    What::Count("bytes of the file", wanted as u64, got as u64)
}

// Where the bytes from `at` on differ first.
fn bytes_difference(at: usize, wanted: &[u8], got: &[u8]) -> Option<What> {
    for (i, a) in wanted.iter().enumerate() {
        let place = at.saturating_add(i);
        let b = got.get(place).copied();
        if b != Some(*a) {
            return Some(What::Byte(place, *a, b));
        }
    }
    None
}

fn whole_difference(wanted: &[u8], got: &[u8]) -> Option<What> {
    if wanted == got {
        return None;
    }
    if wanted.len() != got.len() {
        return Some(len_differs(wanted.len(), got.len()));
    }
    bytes_difference(0, wanted, got)
}

fn check_difference(check: &Check, before: &[u8], got: &[u8]) -> Option<What> {
    match check {
        Check::Len(n) if *n != got.len() => Some(len_differs(*n, got.len())),
        Check::Len(_) => None,
        Check::At(at, bytes) => bytes_difference(*at, bytes.as_slice(), got),
        Check::Is(bytes) => whole_difference(bytes.as_slice(), got),
        Check::Same => whole_difference(before, got),
    }
}

fn is_checked(left: &[Left], file: usize) -> bool {
    for it in left {
        if it.file == file {
            return true;
        }
    }
    false
}

// A file of which nothing is said has to be as it was.
fn silent_difference(wanted: &Wanted, before: &[Named], files: &[Named]) -> Option<Difference> {
    for (i, (file, was)) in files.iter().zip(before.iter()).enumerate() {
        if is_checked(wanted.left.as_slice(), i) {
            continue;
        }
        if let Some(what) = whole_difference(was.bytes.as_slice(), file.bytes.as_slice()) {
            return Some(Difference {
                line: wanted.line,
                file: Some(i),
                what,
            });
        }
    }
    None
}

fn left_difference(left: &Left, before: &[Named], files: &[Named]) -> Option<Difference> {
    let was = before.get(left.file)?;
    let file = files.get(left.file)?;
    let what = check_difference(&left.check, was.bytes.as_slice(), file.bytes.as_slice())?;
    Some(Difference {
        line: left.line,
        file: Some(left.file),
        what,
    })
}

fn checked_difference(wanted: &Wanted, before: &[Named], files: &[Named]) -> Option<Difference> {
    for left in &wanted.left {
        let found = left_difference(left, before, files);
        if found.is_some() {
            return found;
        }
    }
    None
}

fn calls_difference(wanted: &Wanted, calls: &[u64]) -> Option<Difference> {
    for (limit, made) in wanted.limits.iter().zip(calls.iter()) {
        if *made > limit.most {
            return Some(Difference {
                line: limit.line,
                file: Some(limit.file),
                what: What::Count("calls at most", limit.most, *made),
            });
        }
    }
    None
}

fn text_difference(alloc: Global, wanted: &mut Wanted, got: &mut Outcome) -> Option<Difference> {
    if wanted.statuses.len() > 1 {
        return None;
    }
    if let Some(texts) = texts(alloc, &mut wanted.out, &mut got.out) {
        let line = wanted.out_lines.get(texts.line()).copied();
        return Some(Difference {
            line: line.unwrap_or(wanted.line),
            file: None,
            what: What::Text("output", texts),
        });
    }
    let texts = texts(alloc, &mut wanted.err, &mut got.err)?;
    Some(Difference {
        line: wanted.line,
        file: None,
        what: What::Text("standard error", texts),
    })
}

fn status_difference(alloc: Global, wanted: &mut Wanted, got: &Outcome) -> Option<Difference> {
    let what = if !wanted.statuses.contains(&got.status) {
        What::Status(replace(&mut wanted.statuses, Vec::new(alloc)), got.status)
    } else {
        let unread = wanted.unread?;
        if unread == got.unread {
            return None;
        }
        What::Count("bytes not taken", unread as u64, got.unread as u64)
    };
    Some(Difference {
        line: wanted.line,
        file: None,
        what,
    })
}

/// The first difference between what was wanted of a run and what it gave, over files as they were before.
pub fn compare(
    alloc: Global,
    wanted: &mut Wanted,
    got: &mut Outcome,
    before: &[Named],
) -> Option<Difference> {
    if let Some(found) = text_difference(alloc, wanted, got) {
        return Some(found);
    }
    if let Some(found) = status_difference(alloc, wanted, got) {
        return Some(found);
    }
    if let Some(found) = checked_difference(wanted, before, got.files.as_slice()) {
        return Some(found);
    }
    if let Some(found) = silent_difference(wanted, before, got.files.as_slice()) {
        return Some(found);
    }
    calls_difference(wanted, got.calls.as_slice())
}
