// The lines that could not be read: how many, and the number and the text of the first, told on standard error at the end.
use crate::lines::Line;
use arrayvec::ArrayVec;
use std::io;
use std::io::Write;

const SHOWN: usize = 200; // the bytes of a line that are told

const TOLD: usize = 203; // they, and ` ..` after them

// A line's number, and its text as it is told: the first bytes, with a question mark for each control character.
#[derive(Drop)]
pub struct Told {
    number: u64,
    text: ArrayVec<u8, TOLD>,
}

impl Told {
    // There is room for all that is put into the text.
    pub fn of(line: Line<'_>) -> Self {
        let mut text = ArrayVec::new();
        for byte in line.text.iter().take(SHOWN) {
            let _ = text.try_push(if byte.is_ascii_control() { b'?' } else { *byte });
        }
        if SHOWN < line.text.len() {
            let _ = text.try_extend_from_slice(b" ..");
        }
        Told {
            number: line.number,
            text,
        }
    }
}

#[derive(Drop)]
pub struct Unread {
    count: u64,
    first: Option<Told>,
}

impl Unread {
    pub fn none() -> Self {
        Unread {
            count: 0,
            first: None,
        }
    }

    // One more.
    pub fn note(&mut self, line: Told) {
        self.count = self.count.saturating_add(1);
        if self.first.is_none() {
            self.first = Some(line);
        }
    }

    pub fn tell(&self, error: &mut impl Write) -> io::Result<()> {
        let Some(first) = &self.first else {
            return Ok(());
        };
        let number = first.number;
        match self.count {
            1 => write!(error, "replay: 1 line was not read; it is line {number}: ")?,
            n => write!(
                error,
                "replay: {n} lines were not read; the first is line {number}: "
            )?,
        }
        error.write_all(&first.text)?;
        writeln!(error)
    }
}
