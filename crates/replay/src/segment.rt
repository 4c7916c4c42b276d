// The call `segment`, which needs no buffer: the frames that a whole segment lists.
use crate::answers::{self, Answer, first};
use crate::fault::Fault;
use crate::marks::{self, MOST_LENT, TIME};
use crate::segment_words::{MOST_BYTES, bytes_of, track_asked};
use buffer_state::Refusal;
use script::words::Words;
use segments::SegmentTrack;
use std::io::Write;

// The reader, lent the first places of the rows.
fn listed(
    of: SegmentTrack,
    segment: &[u8],
    places: usize,
    rows: &mut [[i64; 6]],
) -> Result<usize, Refusal> {
    let places = places.min(rows.len());
    segment_reader::list_segment(of, segment, &mut rows[..places])
}

// By the words after `segment`, in rows that hold the marks.
pub fn call(mut words: Words<'_>, out: &mut impl Write) -> Result<(), Fault> {
    let of = track_asked(&mut words)?;
    let mut room = [0; MOST_BYTES];
    let bytes = bytes_of(words.word()?, &mut room)?;
    let places = words.lent(b"places=", MOST_LENT)?.unwrap_or(MOST_LENT);
    words.end()?;
    let mut lent = [[TIME; 6]; MOST_LENT];
    let rows: &mut [[i64; 6]] = &mut lent;
    let given = listed(of, bytes, places, rows);
    let untouched = marks::untouched(rows, given.unwrap_or(0), [TIME; 6]);
    let answer = given.map(|n| Answer::Samples(first(rows, n)));
    answers::tell(out, answer, untouched)?;
    Ok(())
}
