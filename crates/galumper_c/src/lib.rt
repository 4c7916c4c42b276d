// The library for programs in C, C++ and Rust: each exported call is the function of the same name in the crate `galumper`, with its promises
// word for word, as proofs/Exports.antt proves. The static library is a crate of its own, since a crate is a library or a static library, and
// nothing can depend on the second.
#![tactic(auto)]

ghost use Rattle.std.specs.Prelude.{◌≡◌, cond, ◌≤◌, length};
ghost use Rattle.buffer_state.specs.Answers.{times_created, tags_created, times_after, tags_after, list_after, outcome_of, abort_result, mode_result, offset_result, window_start_result, window_end_result, settings_result, range_count, ranges_after, track_ranges_result, common_ranges_result, walked_result, seek_result};
ghost use Rattle.buffer_state.specs.Layout.{buffer_of};
ghost use Rattle.buffer_state.specs.Lent.{state_at};
ghost use Rattle.buffer_state.specs.Run.{stored_on};
ghost use Rattle.buffer_state.specs.declared.Mode.TheVariants.{Segments, Sequence};
ghost use Rattle.buffer_state.specs.Settings.{create};
ghost use Rattle.segments.specs.Segments.{list_segment, row_count, rows_after};
ghost use Rattle.feed.specs.Feed.{feed_of, feed_at};
ghost use Rattle.feed.specs.Parts.{part_of, bytes_in, pointer_in};
ghost use Rattle.lumps.specs.Lumps.{more_result, buffer_after, frames_after};
ghost use Rattle.lumps.specs.Readers.{reader_of};
ghost use Rattle.lumps.specs.Readings.{fresh};
ghost use Rattle.galumper.specs.Calls.{handed_back, created_out, outcome_out, append_flat, remove_flat, batch_flat, batch_out, report_out, start_out, is_nonzero, part_in, last_flat, lump_out, reading_out};
ghost use Rattle.galumper.specs.Flat.{abi, buffer_size, segment_track_in, reader_in, reader_out, head_in};

use buffer_state::{Tags, Times};
use galumper::{
    Answered, FlatAnswer, FlatBatched, FlatHead, FlatLumpReader, FlatLumped, FlatOffered, FlatPart,
    FlatSegmentTrack, FlatStart, Reading,
};

// The layout of what is handed over here, and of the functions that take it: a change of either is another number.
#[unsafe(no_mangle)]
pub extern "C" fn galumper_abi() -> u32
    ensures { result ≡ abi }
{
    galumper::galumper_abi()
}

// The bytes of a buffer: a head and its arrays.
#[unsafe(no_mangle)]
pub extern "C" fn galumper_size() -> usize
    ensures { result ≡ buffer_size }
{
    galumper::galumper_size()
}

// A buffer from a lent list of kinds: it clears the arrays. Refused, it touches nothing, and its head is of zeros.
#[unsafe(no_mangle)]
pub extern "C" fn galumper_lent_create(kinds: &[u8], times: &mut Times, tags: &mut Tags) -> Answered
    ensures answer { result ≡ created_out (create kinds.now) }
    ensures times { times.new ≡ times_created (create kinds.now) times.old }
    ensures tags { tags.new ≡ tags_created (create kinds.now) tags.old }
{
    galumper::galumper_lent_create(kinds, times, tags)
}

// Append one frame.
#[unsafe(no_mangle)]
pub extern "C" fn galumper_lent_append(
    c: FlatHead,
    f: FlatOffered,
    times: &mut Times,
    tags: &mut Tags,
    fates: &mut [[u32; 2]],
) -> Answered
    ensures answer { result ≡ outcome_out c (append_flat (length fates.old) f c times.old tags.old) }
    ensures times { times.new ≡ times_after (append_flat (length fates.old) f c times.old tags.old) times.old }
    ensures tags { tags.new ≡ tags_after (append_flat (length fates.old) f c times.old tags.old) tags.old }
    ensures lines { fates.new ≡ list_after (append_flat (length fates.old) f c times.old tags.old) fates.old }
{
    galumper::galumper_lent_append(c, f, times, tags, fates)
}

// Append up to 64 frames, as rows of the numbers that reading a segment lists.
#[unsafe(no_mangle)]
pub extern "C" fn galumper_lent_append_batch(
    c: FlatHead,
    frames: &[[i64; 6]],
    times: &mut Times,
    tags: &mut Tags,
    fates: &mut [[u32; 2]],
) -> FlatBatched
    ensures answer { result ≡ batch_out c (batch_flat (length fates.old) frames.now c times.old tags.old) }
    ensures times { times.new ≡ times_after (outcome_of (batch_flat (length fates.old) frames.now c times.old tags.old)) times.old }
    ensures tags { tags.new ≡ tags_after (outcome_of (batch_flat (length fates.old) frames.now c times.old tags.old)) tags.old }
    ensures lines { fates.new ≡ list_after (outcome_of (batch_flat (length fates.old) frames.now c times.old tags.old)) fates.old }
{
    galumper::galumper_lent_append_batch(c, frames, times, tags, fates)
}

// Remove a stretch of time.
#[unsafe(no_mangle)]
pub extern "C" fn galumper_lent_remove(
    c: FlatHead,
    start: f64,
    end: f64,
    times: &mut Times,
    tags: &mut Tags,
    fates: &mut [[u32; 2]],
) -> Answered
    ensures answer { result ≡ outcome_out c (remove_flat (length fates.old) start end c times.old tags.old) }
    ensures times { times.new ≡ times_after (remove_flat (length fates.old) start end c times.old tags.old) times.old }
    ensures tags { tags.new ≡ tags_after (remove_flat (length fates.old) start end c times.old tags.old) tags.old }
    ensures lines { fates.new ≡ list_after (remove_flat (length fates.old) start end c times.old tags.old) fates.old }
{
    galumper::galumper_lent_remove(c, start, end, times, tags, fates)
}

#[unsafe(no_mangle)]
pub extern "C" fn galumper_lent_abort(c: FlatHead, times: &Times, tags: &Tags) -> Answered
    ensures { result ≡ handed_back c (abort_result (head_in c) times.now tags.now) }
{
    galumper::galumper_lent_abort(c, times, tags)
}

// A call for each mode, so that no other can be passed.
#[unsafe(no_mangle)]
pub extern "C" fn galumper_lent_set_segments(c: FlatHead, times: &Times, tags: &Tags) -> Answered
    ensures { result ≡ handed_back c (mode_result Segments (head_in c) times.now tags.now) }
{
    galumper::galumper_lent_set_segments(c, times, tags)
}

#[unsafe(no_mangle)]
pub extern "C" fn galumper_lent_set_sequence(c: FlatHead, times: &Times, tags: &Tags) -> Answered
    ensures { result ≡ handed_back c (mode_result Sequence (head_in c) times.now tags.now) }
{
    galumper::galumper_lent_set_sequence(c, times, tags)
}

#[unsafe(no_mangle)]
pub extern "C" fn galumper_lent_set_offset(
    c: FlatHead,
    times: &Times,
    tags: &Tags,
    seconds: f64,
) -> Answered
    ensures { result ≡ handed_back c (offset_result seconds (head_in c) times.now tags.now) }
{
    galumper::galumper_lent_set_offset(c, times, tags, seconds)
}

#[unsafe(no_mangle)]
pub extern "C" fn galumper_lent_set_window_start(
    c: FlatHead,
    times: &Times,
    tags: &Tags,
    seconds: f64,
) -> Answered
    ensures { result ≡ handed_back c (window_start_result seconds (head_in c) times.now tags.now) }
{
    galumper::galumper_lent_set_window_start(c, times, tags, seconds)
}

#[unsafe(no_mangle)]
pub extern "C" fn galumper_lent_set_window_end(
    c: FlatHead,
    times: &Times,
    tags: &Tags,
    seconds: f64,
) -> Answered
    ensures { result ≡ handed_back c (window_end_result seconds (head_in c) times.now tags.now) }
{
    galumper::galumper_lent_set_window_end(c, times, tags, seconds)
}

#[unsafe(no_mangle)]
pub extern "C" fn galumper_lent_read_settings(c: FlatHead, times: &Times, tags: &Tags) -> Reading
    ensures { result ≡ reading_out (settings_result (head_in c) times.now tags.now) }
{
    galumper::galumper_lent_read_settings(c, times, tags)
}

// A track's ranges.
#[unsafe(no_mangle)]
pub extern "C" fn galumper_lent_track_ranges(
    c: FlatHead,
    times: &Times,
    tags: &Tags,
    track: u32,
    list: &mut [[i64; 2]],
) -> FlatAnswer
    ensures value { result ≡ report_out (range_count (track_ranges_result (length list.old) track (head_in c) times.now tags.now)) }
    ensures list_after { list.new ≡ ranges_after (track_ranges_result (length list.old) track (head_in c) times.now tags.now) list.old }
{
    galumper::galumper_lent_track_ranges(c, times, tags, track, list)
}

// The ranges common to all tracks.
#[unsafe(no_mangle)]
pub extern "C" fn galumper_lent_common_ranges(
    c: FlatHead,
    times: &Times,
    tags: &Tags,
    list: &mut [[i64; 2]],
) -> FlatAnswer
    ensures value { result ≡ report_out (range_count (common_ranges_result (length list.old) (head_in c) times.now tags.now)) }
    ensures list_after { list.new ≡ ranges_after (common_ranges_result (length list.old) (head_in c) times.now tags.now) list.old }
{
    galumper::galumper_lent_common_ranges(c, times, tags, list)
}

// How many frames the walk of a track's ranges takes where so many places are lent, also where these are too few for the ranges.
#[unsafe(no_mangle)]
pub extern "C" fn galumper_lent_walked(
    c: FlatHead,
    times: &Times,
    tags: &Tags,
    track: u32,
    room: usize,
) -> FlatAnswer
    ensures { result ≡ report_out (walked_result room track (head_in c) times.now tags.now) }
{
    galumper::galumper_lent_walked(c, times, tags, track, room)
}

// Where to start decoding for a track and an instant in microseconds. The frames to decode are never more than the track has.
#[unsafe(no_mangle)]
pub extern "C" fn galumper_lent_seek(
    c: FlatHead,
    times: &Times,
    tags: &Tags,
    track: u32,
    instant: i64,
) -> FlatStart
    ensures value { result ≡ start_out (seek_result track instant (head_in c) times.now tags.now) }
    ensures count_bound { result.count ≤ stored_on track (buffer_of (state_at (head_in c) times.now tags.now)) }
{
    galumper::galumper_lent_seek(c, times, tags, track, instant)
}

// What to feed a decoder, by where it stands: in the initialization bytes, all of them, or in the segment, the part from a place up to
// another. An exported function can hand back no slice, so it tells the part, and what is lent is the caller's to point into.
#[unsafe(no_mangle)]
pub extern "C" fn galumper_lent_feed(
    initialization: &[u8],
    segment: &[u8],
    whole: u32,
    start: usize,
    end: usize,
) -> FlatPart
    ensures part { part_in result ≡ part_of (is_nonzero whole) (length initialization.now) (length segment.now) start end }
    ensures bytes { bytes_in (part_in result) (cond (is_nonzero whole) initialization.now segment.now) ≡ feed_of (is_nonzero whole) initialization.now segment.now start end }
    ensures stands { pointer_in (part_in result) (cond (is_nonzero whole) initialization.entry.ref_ptr segment.entry.ref_ptr) ≡ feed_at (is_nonzero whole) initialization.entry.ref_ptr segment.entry.ref_ptr (length segment.now) start end }
{
    galumper::galumper_lent_feed(initialization, segment, whole, start, end)
}

// The frames of one track in a segment, each with its size, as a row of numbers: track, presentation and decode timestamp, duration,
// 1 if flagged, size. It takes no buffer.
#[unsafe(no_mangle)]
pub extern "C" fn galumper_lent_list_segment(
    of: FlatSegmentTrack,
    segment: &[u8],
    list: &mut [[i64; 6]],
) -> FlatAnswer
    ensures value { result ≡ report_out (row_count (list_segment (segment_track_in of) (length list.old) segment.now)) }
    ensures list_after { list.new ≡ rows_after (list_segment (segment_track_in of) (length list.old) segment.now) list.old }
{
    galumper::galumper_lent_list_segment(of, segment, list)
}

// A reader to which no byte has come.
#[unsafe(no_mangle)]
pub extern "C" fn galumper_fresh_reader() -> FlatLumpReader
    ensures { result ≡ reader_out (reader_of fresh) }
{
    galumper::galumper_fresh_reader()
}

// A lump of a segment after which more comes.
#[unsafe(no_mangle)]
pub extern "C" fn galumper_lent_take_lump(
    c: FlatLumpReader,
    buffer: &mut [u8],
    lump: &[u8],
) -> FlatLumped
    ensures answer { result ≡ lump_out c (more_result (reader_in c) buffer.old lump.now) }
    ensures buffer { buffer.new ≡ buffer_after (more_result (reader_in c) buffer.old lump.now) buffer.old }
{
    galumper::galumper_lent_take_lump(c, buffer, lump)
}

// The last lump of a segment.
#[unsafe(no_mangle)]
pub extern "C" fn galumper_lent_take_last(
    c: FlatLumpReader,
    of: FlatSegmentTrack,
    buffer: &[u8],
    lump: &[u8],
    list: &mut [[i64; 6]],
) -> FlatLumped
    ensures answer { result ≡ lump_out c (last_flat of (length list.old) c buffer.now lump.now) }
    ensures frames { list.new ≡ frames_after (last_flat of (length list.old) c buffer.now lump.now) list.old }
{
    galumper::galumper_lent_take_last(c, of, buffer, lump, list)
}
