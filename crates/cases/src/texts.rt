use std::fmt;

/// Two texts that differ: the one that was wanted and the one that a run gave.
#[derive(Drop)]
pub struct Texts {
    pub wanted: Vec<u8>,
    pub got: Vec<u8>,
}

/// A line of a text, where the text goes so far.
#[derive(Clone, Copy)]
struct Shown<'a>(Option<&'a [u8]>);

// The first place where two texts differ.
fn first_difference(wanted: &[u8], got: &[u8]) -> usize {
    for (i, (a, b)) in wanted.iter().zip(got.iter()).enumerate() {
        if a != b {
            return i;
        }
    }
    wanted.len().min(got.len())
}

// How many lines end before a place, and where the line of that place begins.
fn line_start(text: &[u8], place: usize) -> (usize, usize) {
    let mut count: usize = 0;
    let mut start: usize = 0;
    for (i, byte) in text.iter().enumerate() {
        if i >= place {
            break;
        }
        if *byte == b'\n' {
            count = count.saturating_add(1);
            start = i.saturating_add(1);
        }
    }
    (count, start)
}

// The line that begins at a place, with its line feed.
fn line_from(text: &[u8], start: usize) -> Option<&[u8]> {
    if start >= text.len() {
        return None;
    }
    let text = &text[start..];
    for (i, byte) in text.iter().enumerate() {
        if *byte == b'\n' {
            return Some(&text[..=i]);
        }
    }
    Some(text)
}

impl Texts {
    /// The number of the first line that differs, from 0.
    pub fn line(&self) -> usize {
        let place = first_difference(self.wanted.as_slice(), self.got.as_slice());
        let (count, _) = line_start(self.wanted.as_slice(), place);
        count
    }
}

// A byte that is no printable character of ASCII is shown by its digits.
fn show_byte<W: fmt::Write>(f: &mut fmt::Formatter<W>, byte: u8) -> fmt::Result {
    if byte.is_ascii_graphic() || byte == b' ' {
        write!(f, "{}", char::from(byte))
    } else if byte == b'\n' {
        write!(f, "\\n")
    } else {
        write!(f, "\\x{byte:02X}")
    }
}

impl<'a> fmt::Display for Shown<'a> {
    fn fmt<W: fmt::Write>(&self, f: &mut fmt::Formatter<W>) -> fmt::Result {
        let Some(line) = self.0 else {
            return write!(f, "nothing");
        };
        for byte in line {
            show_byte(f, *byte)?;
        }
        Ok(())
    }
}

impl fmt::Display for Texts {
    fn fmt<W: fmt::Write>(&self, f: &mut fmt::Formatter<W>) -> fmt::Result {
        let place = first_difference(self.wanted.as_slice(), self.got.as_slice());
        let (_, start) = line_start(self.wanted.as_slice(), place);
        let wanted = Shown(line_from(self.wanted.as_slice(), start));
        let got = Shown(line_from(self.got.as_slice(), start));
        write!(f, "wanted: {wanted}, got: {got}")
    }
}
