// Document 02, No. 1: a reader that carries one lent segment and its place in it. It is a thin struct: each function over it takes it apart
// and calls a function on the slice and the number.
#![tactic(auto)]

ghost use Rattle.std.specs.Prelude.{◌≡◌, length, drop, option_map};
ghost use Rattle.boxes.specs.Boxes.{part_of, Gives, body_at, Stands};
ghost use Rattle.segments.specs.Segments.{list_segment, row_count, rows_after};
ghost use Rattle.segment_reader.specs.Steps.{step_from, place_after};

use boxes::{BoxPart, Cursor, Malformed};
use buffer_state::Refusal;
use segments::SegmentTrack;

#[derive(Clone, Copy)]
pub struct SegmentReader<'a> {
    pub segment: &'a [u8],
    pub at: usize,
}

// ---- on a slice and a place

// The box at a place.
fn step_at(s: &[u8], at: usize) -> Result<Option<BoxPart<'_>>, Malformed>
    ensures value { Gives (λ found. option_map part_of found) result (step_from s.now at) }
    ensures stands { Stands result (body_at s.entry.ref_ptr s.now at) }
{
    if s.len() < at {
        return Err(Malformed);
    }
    let mut cursor = Cursor { at };
    cursor.next_box(s)
}

// The place after it.
fn place_after(s: &[u8], at: usize) -> usize
    ensures { result ≡ place_after s.now at }
{
    if s.len() < at {
        return at;
    }
    let mut cursor = Cursor { at };
    // Where no box is found, the cursor stays.
    let _ = cursor.next_box(s);
    cursor.at
}

// ---- on a reader

// A reader at the segment's start.
pub fn opened<'a>(segment: &'a [u8]) -> SegmentReader<'a>
    ensures { (result.segment ≡ segment.entry) × (result.at ≡ 0) }
{
    SegmentReader { segment, at: 0 }
}

// The box at the reader's place.
pub fn look<'a>(r: SegmentReader<'a>) -> Result<Option<BoxPart<'a>>, Malformed>
    ensures value { Gives (λ found. option_map part_of found) result (step_from r.entry.segment.now r.entry.at) }
    ensures stands { Stands result (body_at r.entry.segment.ref_ptr r.entry.segment.now r.entry.at) }
{
    step_at(r.segment, r.at)
}

// The reader past that box: the same segment, and the next place.
pub fn onward<'a>(r: SegmentReader<'a>) -> SegmentReader<'a>
    ensures { (result.segment ≡ r.entry.segment) × (result.at ≡ place_after r.entry.segment.now r.entry.at) }
{
    let at = place_after(r.segment, r.at);
    SegmentReader {
        segment: r.segment,
        at,
    }
}

// The frames of a track in what stands from the reader's place on.
pub fn frames<'a>(
    r: SegmentReader<'a>,
    of: SegmentTrack,
    list: &mut [[i64; 6]],
) -> Result<usize, Refusal>
    ensures value { result ≡ row_count (list_segment of (length list.old) (drop r.entry.at r.entry.segment.now)) }
    ensures list_after { list.new ≡ rows_after (list_segment of (length list.old) (drop r.entry.at r.entry.segment.now)) list.old }
{
    segments::list_from(of, r.segment, r.at, list)
}

// The frames of a track in a segment.
pub fn list_segment(
    of: SegmentTrack,
    segment: &[u8],
    list: &mut [[i64; 6]],
) -> Result<usize, Refusal>
    ensures value { result ≡ row_count (list_segment of (length list.old) segment.now) }
    ensures list_after { list.new ≡ rows_after (list_segment of (length list.old) segment.now) list.old }
{
    frames(opened(segment), of, list)
}
