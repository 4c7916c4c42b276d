// The words that `segment` and `lump` have alike: the numbers that say what is asked for, and the bytes.
use crate::lines::ROOM;
use fragments::Defaults;
use script::words::{Unmade, Words};
use segments::SegmentTrack;

pub const MOST_BYTES: usize = ROOM / 2; // more than a line has digits for

// The six words that come next. Each is of 32 bits, the track number too: a frame carries it, so that no other can stand for one beyond
// them.
pub fn track_asked(words: &mut Words<'_>) -> Result<SegmentTrack, Unmade> {
    let id = words.small()?;
    let track = words.small()?;
    let timescale = words.small()?;
    let duration = words.small()?;
    let size = words.small()?;
    let flags = words.small()?;
    Ok(SegmentTrack {
        id,
        track,
        timescale,
        defaults: Defaults {
            duration,
            size,
            flags,
        },
    })
}

// The bytes of a word that has two digits in lower case for each, put into the room that is lent; no bytes are `-`. The empty word stands for
// nothing.
pub fn bytes_of<'a>(word: &[u8], room: &'a mut [u8]) -> Result<&'a [u8], Unmade> {
    if word == b"-".as_slice() {
        return Ok(&[]);
    }
    if word.is_empty() || word.iter().any(|b| b.is_ascii_uppercase()) {
        return Err(Unmade::Unknown);
    }
    let bytes = room.get_mut(..word.len() / 2).ok_or(Unmade::Unknown)?;
    match hex::decode_to_slice(word, bytes) {
        Ok(()) => Ok(bytes),
        Err(_) => Err(Unmade::Unknown),
    }
}
