// A batch line by line: its own, then those of its frames, which are kept until the last of them is read.
use crate::calls::offered;
use crate::lines::Line;
use crate::marks::MOST_LENT;
use crate::unread::Told;
use arrayvec::ArrayVec;
use script::words::{Unmade, Words};

const LINES: usize = 1088; // the lines lent where the script says nothing

const MOST_FRAMES: usize = 65; // one more than a batch may have, as more are refused like 65

// A batch whose frames stand in the lines after it: its own line; how many frames are still to come; those that came; and how many fate lines
// it is lent, unless a line of it could not be read.
#[derive(Drop)]
pub struct Batch {
    pub line: Told,
    pub left: u32,
    pub frames: ArrayVec<[i64; 6], MOST_FRAMES>,
    pub lent: Option<usize>,
}

// How many fate lines the line of a batch says.
pub fn lines(mut words: Words<'_>) -> Result<usize, Unmade> {
    let lines = words.lent(b"fates=", MOST_LENT)?.unwrap_or(LINES);
    words.end()?;
    Ok(lines)
}

// The frame that an append would offer. It has the words of an append, and none after them; a script names no size.
pub fn frame_of(line: Line<'_>, mut words: Words<'_>) -> Result<[i64; 6], Unmade> {
    if line.cut {
        return Err(Unmade::Unknown);
    }
    let frame = offered(&mut words)?;
    words.end()?;
    Ok([
        i64::from(frame.track),
        frame.pts,
        frame.dts,
        i64::from(frame.duration),
        i64::from(frame.flagged),
        0,
    ])
}

impl Batch {
    pub fn new(line: Told, left: u32, lent: Option<usize>) -> Self {
        Batch {
            line,
            left,
            frames: ArrayVec::new(),
            lent,
        }
    }

    // One of its frames came, or a line of one that could not be read.
    pub fn come(&mut self, frame: Result<[i64; 6], Unmade>) {
        self.left = self.left.saturating_sub(1);
        match frame {
            Ok(_) if self.frames.is_full() => {}
            Ok(row) => self.frames.push(row),
            Err(_) => self.lent = None,
        }
    }
}
