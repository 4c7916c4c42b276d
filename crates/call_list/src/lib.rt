// A list of calls, rows of numbers, run through the public functions on a fresh buffer in two lent arrays.
#![tactic(auto)]

ghost use Rattle.std.specs.Prelude.{◌≡◌, true, ◌+◌, ◌≤◌, ◌<◌, leb, length, get_or};
ghost use Rattle.std.specs.Result.{result_err};
ghost use Rattle.buffer_state.specs.Lent.{buffer_in};
ghost use Rattle.buffer_state.specs.Run.{total};
ghost use Rattle.call_rows.specs.Encoded.{of_lines, of_ranges, row_call};
ghost use Rattle.call_rows.specs.Replies.{lent, reply_on, written_at, CalledAt};
ghost use Rattle.call_list.specs.declared.Unrun.TheVariants.{Refused};
ghost use Rattle.call_list.specs.Listed.{of_batch, first_frame, frame_count, frames_of_row, noted, lists_of, long_enough, row_fits, offers_of_row, rows_fit, ranges_of_row, fits, fits_in, unrun_for, Ends, encoded_calls, IsBegun, Replayed};

use buffer_state::{Head, Refusal, Tags, Times};
use call_rows::{ABORT, APPEND, BATCH, READ, SEEK, Step, TRACK_RANGES, WALKED};

// Why there is no run: a list is too short, a call is of no kind or names frames that are not there; or the creation was refused.
#[derive(Clone, Copy)]
pub enum Unrun {
    Unfit,
    Refused(Refusal),
}

impl From<Refusal> for Unrun {
    ghost from_gives = { λ why e. e ≡ Refused why };

    fn from(why: Refusal) -> Unrun {
        Unrun::Refused(why)
    }
}

// How many places of the lists of lines, ranges and readings a run wrote, and the last head.
#[derive(Clone, Copy)]
pub struct Ran {
    pub lines: usize,
    pub ranges: usize,
    pub readings: usize,
    pub head: Head,
}

// Of a number that a call of this kind asks for or gives: how much of it is fate lines, how much is ranges, how much is frames of a batch.
fn of_lines(kind: u32, n: usize) -> usize
    ensures { result ≡ of_lines kind n }
{
    if kind < ABORT || kind == BATCH { n } else { 0 }
}

fn of_ranges(kind: u32, n: usize) -> usize
    ensures { result ≡ of_ranges kind n }
{
    if (TRACK_RANGES..BATCH).contains(&kind) {
        n
    } else {
        0
    }
}

fn of_batch(kind: u32, n: usize) -> usize
    ensures { result ≡ of_batch kind n }
{
    if kind == BATCH { n } else { 0 }
}

// Where in the list of frames those of a row begin, and how many they are.
fn first_frame(row: [u32; 5]) -> usize
    ensures { result ≡ first_frame row }
{
    of_batch(row[0], row[1] as usize)
}

fn frame_count(row: [u32; 5]) -> usize
    ensures { result ≡ frame_count row }
{
    of_batch(row[0], row[3] as usize)
}

// One call of the list, lent the places from `at` and from `placed` on. A walk writes none, and is told how many its row names.
fn call_at(
    h: Head,
    row: [u32; 5],
    stamps: [i64; 2],
    seconds: [f64; 2],
    frames: &[[i64; 6]],
    times: &mut Times,
    tags: &mut Tags,
    lines: &mut [[u32; 2]],
    at: usize,
    list: &mut [[i64; 2]],
    placed: usize,
) -> Step
    requires { (at + of_lines (get_or row 0 0) (get_or row 4 0) ≤ length lines.old) × (placed + of_ranges (get_or row 0 0) (get_or row 4 0) ≤ length list.old) × (first_frame row + frame_count row ≤ length frames.now) }
    ensures { CalledAt (reply_on (row_call row stamps seconds (frames_of_row row frames.now)) (lent h times.old tags.old)) result times.new tags.new lines.old at lines.new list.old placed list.new }
{
    let kind = row[0];
    let places = row[4] as usize;
    if kind == WALKED {
        return call_rows::walked_step(h, row[1], times, tags, places);
    }
    let to = at + of_lines(kind, places);
    let end = placed + of_ranges(kind, places);
    let first = first_frame(row);
    let past = first + frame_count(row);
    call_rows::make_call(
        h,
        row,
        stamps,
        seconds,
        &frames[first..past],
        times,
        tags,
        &mut lines[at..to],
        &mut list[placed..end],
    )
}

// Where the call is a reading, its doubles, at the next place.
fn note_reading(kind: u32, doubles: [f64; 3], readings: &mut [[f64; 3]], at: usize) -> usize
    requires { at < length readings.old }
    ensures count { result ≡ at + length (noted kind doubles) }
    ensures list { readings.new ≡ written_at readings.old at (noted kind doubles) }
{
    if kind == READ {
        readings[at] = doubles;
        return at + 1;
    }
    at
}

// All calls of a list that fits, from a state without frames.
fn run_from(
    start: Head,
    calls: &[[u32; 5]],
    stamps: &[[i64; 2]],
    seconds: &[[f64; 2]],
    frames: &[[i64; 6]],
    answers: &mut [[usize; 6]],
    lines: &mut [[u32; 2]],
    list: &mut [[i64; 2]],
    readings: &mut [[f64; 3]],
    times: &mut Times,
    tags: &mut Tags,
) -> Ran
    requires { IsBegun (lent start times.old tags.old) × (fits_in calls.now stamps.now seconds.now frames.now (lists_of answers.old lines.old list.old readings.old times.old tags.old) ≡ true) }
    ensures { Replayed (buffer_in (lent start times.old tags.old)) (encoded_calls calls.now stamps.now seconds.now frames.now) result
        (lists_of answers.old lines.old list.old readings.old times.old tags.old)
        (lists_of answers.new lines.new list.new readings.new times.new tags.new) }
{
    let mut h = start;
    let mut at = 0;
    let mut placed = 0;
    let mut read = 0;
    for (i, row) in calls.iter().enumerate() {
        let t = call_at(
            h, *row, stamps[i], seconds[i], frames, times, tags, lines, at, list, placed,
        );
        answers[i] = [t.refusal, t.count, t.accepted, t.stop, t.target, t.flagged];
        read = note_reading(row[0], t.doubles, readings, read);
        at += of_lines(row[0], t.count);
        placed += of_ranges(row[0], t.count);
        h = t.head;
    }
    Ran {
        lines: at,
        ranges: placed,
        readings: read,
        head: h,
    }
}

// ---- whether a list of calls can be run

fn long_enough(n: usize, stamps: usize, seconds: usize, answers: usize, readings: usize) -> bool
    ensures { result ≡ long_enough n stamps seconds answers readings }
{
    n <= stamps && n <= seconds && n <= answers && n <= readings
}

// Whether so many from `first` on are inside a list of length `len`; no sum, which might overflow.
fn inside(first: usize, count: usize, len: usize) -> bool
    ensures { result ≡ leb (first + count) len }
{
    first <= len && count <= len - first
}

fn row_fits(row: [u32; 5], frames: usize, room: usize) -> bool
    ensures { result ≡ row_fits frames room row }
{
    let asked = of_lines(row[0], row[4] as usize);
    row[0] <= SEEK && asked <= room && inside(first_frame(row), frame_count(row), frames)
}

fn offers_of_row(row: [u32; 5]) -> usize
    ensures { result ≡ offers_of_row row }
{
    if row[0] == APPEND {
        1
    } else {
        frame_count(row)
    }
}

#[tactic(auto, using(crate::proofs::ClaimLaws::rows_stop, crate::proofs::ClaimLaws::rows_step, crate::proofs::ClaimLaws::rows_end))]
fn rows_fit(calls: &[[u32; 5]], frames: usize, lines: usize) -> bool
    ensures { result ≡ rows_fit frames lines calls.now }
{
    let mut room = lines;
    for row in calls {
        if !row_fits(*row, frames, room) {
            return false;
        }
        room = room.saturating_sub(offers_of_row(*row));
    }
    true
}

fn ranges_of_row(row: [u32; 5]) -> usize
    ensures { result ≡ ranges_of_row row }
{
    of_ranges(row[0], row[4] as usize)
}

// Taken from the room, row by row, so that no sum can overflow.
fn ranges_fit(calls: &[[u32; 5]], room: usize) -> bool
    ensures { result ≡ leb (total ranges_of_row calls.now) room }
{
    let mut left = room;
    for row in calls {
        let asked = ranges_of_row(*row);
        if left < asked {
            return false;
        }
        left -= asked;
    }
    true
}

#[tactic(auto, unfolding(crate::specs::Listed::fits))]
fn fit(
    calls: &[[u32; 5]],
    stamps: usize,
    seconds: usize,
    frames: usize,
    answers: usize,
    lines: usize,
    ranges: usize,
    readings: usize,
) -> bool
    ensures { result ≡ fits calls.now stamps seconds frames answers lines ranges readings }
{
    long_enough(calls.len(), stamps, seconds, answers, readings)
        && rows_fit(calls, frames, lines)
        && ranges_fit(calls, ranges)
}

// ---- the run

// Create a buffer in the arrays and make every call of the list on it, each handed the head last given. Row i of `calls`, with row i of
// `stamps` and of `seconds`, is a call; a batch's row names its frames in `frames`. Its answer goes to row i of `answers`; lines, ranges
// and readings follow each other in their lists. Where there is no run, nothing is written.
pub fn run(
    kinds: &[u8],
    calls: &[[u32; 5]],
    stamps: &[[i64; 2]],
    seconds: &[[f64; 2]],
    frames: &[[i64; 6]],
    answers: &mut [[usize; 6]],
    lines: &mut [[u32; 2]],
    list: &mut [[i64; 2]],
    readings: &mut [[f64; 3]],
    times: &mut Times,
    tags: &mut Tags,
) -> Result<Ran, Unrun>
    ensures ending { result_err result ≡ unrun_for kinds.now (fits_in calls.now stamps.now seconds.now frames.now
        (lists_of answers.old lines.old list.old readings.old times.old tags.old)) }
    ensures claim { Ends result kinds.now (encoded_calls calls.now stamps.now seconds.now frames.now)
        (lists_of answers.old lines.old list.old readings.old times.old tags.old)
        (lists_of answers.new lines.new list.new readings.new times.new tags.new) }
{
    if !fit(
        calls,
        stamps.len(),
        seconds.len(),
        frames.len(),
        answers.len(),
        lines.len(),
        list.len(),
        readings.len(),
    ) {
        return Err(Unrun::Unfit);
    }
    let h = settings::create(kinds, times, tags)?;
    Ok(run_from(
        h, calls, stamps, seconds, frames, answers, lines, list, readings, times, tags,
    ))
}
