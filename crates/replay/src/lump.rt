// The calls `lump` and `lump-fresh`, which need no slot: one reader goes from call to call, and one buffer is lent to it.
use crate::answers::{self, Answer, first};
use crate::fault::Fault;
use crate::marks::{self, MOST_LENT, TIME};
use crate::segment_words::{MOST_BYTES, bytes_of, track_asked};
use buffer_state::Refusal;
use lumps::LumpReader;
use script::words::{Unmade, Words};
use segments::SegmentTrack;
use std::io::Write;

const KEPT: usize = 65536; // the bytes of a buffer that a reader may use; as many are lent where the script says nothing

const ROOM: usize = 131072; // the bytes of the buffer, as many as a script may ask for

// A lump, whether it is the last, and how much is lent to the call.
#[derive(Clone, Copy)]
struct Lump<'a> {
    of: SegmentTrack,
    bytes: &'a [u8],
    last: bool,
    places: usize,
    room: usize,
}

// How many places, and how many bytes of the buffer, the words say that are left. Each is said once at most, in any order.
fn lent_to(words: &mut Words<'_>) -> Result<(usize, usize), Unmade> {
    let before = words.lent(b"buffer=", ROOM)?;
    let places = words.lent(b"places=", MOST_LENT)?;
    let room = match before {
        Some(room) => Some(room),
        None => words.lent(b"buffer=", ROOM)?,
    };
    words.end()?;
    Ok((places.unwrap_or(MOST_LENT), room.unwrap_or(KEPT)))
}

// By the words after `lump`. Its bytes are put into the room that is lent.
fn lump_of<'a>(mut words: Words<'_>, room: &'a mut [u8]) -> Result<Lump<'a>, Unmade> {
    let last = match words.word()? {
        b"last" => true,
        b"more" => false,
        _ => return Err(Unmade::Unknown),
    };
    let of = track_asked(&mut words)?;
    let bytes = bytes_of(words.word()?, room)?;
    let (places, room) = lent_to(&mut words)?;
    Ok(Lump {
        of,
        bytes,
        last,
        places,
        room,
    })
}

// The reader, lent the buffer and the first places of the rows.
fn taken(
    lump: Lump<'_>,
    reader: &mut LumpReader,
    buffer: &mut [u8],
    rows: &mut [[i64; 6]],
) -> Result<usize, Refusal> {
    let places = lump.places.min(rows.len());
    let list = &mut rows[..places];
    lumps::take_lump(lump.of, reader, buffer, lump.bytes, lump.last, list)
}

// Frames are listed only where the lump is the last.
fn answer(
    given: Result<usize, Refusal>,
    last: bool,
    rows: &[[i64; 6]],
) -> Result<Answer<'_>, Refusal> {
    match given {
        Ok(n) if last => Ok(Answer::Samples(first(rows, n))),
        Ok(_) => Ok(Answer::Done),
        Err(why) => Err(why),
    }
}

#[derive(Clone, Copy)]
pub struct Lumps {
    reader: LumpReader,
    buffer: [u8; ROOM],
}

impl Lumps {
    pub fn new() -> Self {
        Lumps {
            reader: lumps::fresh_reader(),
            buffer: [0; ROOM],
        }
    }

    // The next lump, with rows that hold the marks. A call that is refused leaves all of the buffer as it was, any other what lies past the
    // bytes that the reader may use.
    pub fn call(&mut self, words: Words<'_>, out: &mut impl Write) -> Result<(), Fault> {
        let mut bytes = [0; MOST_BYTES];
        let lump = lump_of(words, &mut bytes)?;
        let mut lent = [[TIME; 6]; MOST_LENT];
        let rows: &mut [[i64; 6]] = &mut lent;
        let before = self.buffer;
        let mut reader = self.reader;
        let buffer = &mut self.buffer[..lump.room.min(ROOM)];
        let given = taken(lump, &mut reader, buffer, rows);
        self.reader = reader;
        let (used, written) = match given {
            Ok(n) if lump.last => (KEPT, n),
            Ok(_) => (KEPT, 0),
            Err(_) => (0, 0),
        };
        let untouched = before[used..] == self.buffer[used..]
            && marks::untouched(rows, written, [TIME; 6]);
        answers::tell(out, answer(given, lump.last, rows), untouched)?;
        Ok(())
    }

    // A reader that has met nothing.
    pub fn fresh(&mut self, words: Words<'_>, out: &mut impl Write) -> Result<(), Fault> {
        words.end()?;
        self.reader = lumps::fresh_reader();
        answers::tell(out, Ok(Answer::Done), true)?;
        Ok(())
    }
}
