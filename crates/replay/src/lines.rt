// The lines of a script.
use arrayvec::ArrayVec;
use memchr::memchr;
use std::io::{Read, Write};

pub const ROOM: usize = 131_328; // one byte more than a line may have; a lump of 65,537 bytes, which is one too many, can be said in it

const CHUNK: usize = 8192; // the bytes that are read at once

// A line as it is read: its number, counted from 1, and its text, which is cut off where the line is too long.
#[derive(Clone, Copy, Debug)]
pub struct Line<'a> {
    pub number: u64,
    pub text: &'a [u8],
    pub cut: bool,
}

impl Line<'_> {
    // A line with no answer.
    pub fn is_blank(&self) -> bool {
        self.text.is_empty() || self.text.starts_with(b"#")
    }
}

// What was read of a script and not yet taken: it stands in the chunk from one place up to another.
#[derive(Drop)]
struct Input<R: Read + Drop> {
    reader: R,
    chunk: [u8; CHUNK],
    from: usize,
    to: usize,
}

impl<R: Read + Drop> Input<R> {
    // What is at hand. A chunk is read where nothing is left of the last one; nothing is at hand once the script ends, as it does where a
    // read fails.
    fn at_hand(&mut self) -> &[u8] {
        if self.to <= self.from {
            self.from = 0;
            self.to = self.reader.read(&mut self.chunk).unwrap_or(0);
        }
        self.chunk.get(self.from..self.to).unwrap_or(&[])
    }

    fn take(&mut self, n: usize) {
        self.from = self.from.saturating_add(n);
    }
}

// What was at hand of a line.
enum Piece {
    Part,
    Last,
    End,
}

// A script that is read line by line.
#[derive(Drop)]
pub struct Lines<R: Read + Drop> {
    input: Input<R>,
    bytes: ArrayVec<u8, ROOM>,
    number: u64,
    ended: bool,
}

impl<R: Read + Drop> Lines<R> {
    pub fn new(reader: R) -> Self {
        Lines {
            input: Input {
                reader,
                chunk: [0; CHUNK],
                from: 0,
                to: 0,
            },
            bytes: ArrayVec::new(),
            number: 0,
            ended: false,
        }
    }

    // Reads the next line, and says whether there is one. Of a line that is too long one byte more is kept than a line may have.
    pub fn advance(&mut self) -> bool {
        self.bytes.clear();
        self.number = self.number.saturating_add(1);
        for _ in 0..u64::MAX {
            match self.take_piece() {
                Piece::Part => {}
                Piece::Last => return true,
                Piece::End => break,
            }
        }
        !self.bytes.is_empty()
    }

    // Takes what is at hand, up to a newline.
    fn take_piece(&mut self) -> Piece {
        if self.ended {
            return Piece::End;
        }
        let bytes = self.input.at_hand();
        if bytes.is_empty() {
            self.ended = true;
            return Piece::End;
        }
        let newline = memchr(b'\n', bytes);
        let part = &bytes[..newline.unwrap_or(bytes.len())];
        let _ = self.bytes.write(part); // as much as there is room for
        let taken = part.len() + usize::from(newline.is_some());
        self.input.take(taken);
        if newline.is_some() {
            Piece::Last
        } else {
            Piece::Part
        }
    }

    // The line that was read last, without a byte order mark before the first line and a carriage return at its end.
    pub fn line(&self) -> Line<'_> {
        let bytes = self.bytes.as_slice();
        let text = match self.number {
            1 => bytes.strip_prefix(b"\xEF\xBB\xBF").unwrap_or(bytes),
            _ => bytes,
        };
        Line {
            number: self.number,
            text: text.strip_suffix(b"\r").unwrap_or(text),
            cut: self.bytes.is_full(),
        }
    }
}
