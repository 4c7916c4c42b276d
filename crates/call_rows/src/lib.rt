// A call as rows of numbers, made on any head and arrays: what it is and what it is handed; what it answered.
#![tactic(auto)]

ghost use Rattle.std.specs.Prelude.{◌≡◌, map, pos, length, get_or};
ghost use Rattle.buffer_state.specs.Batch.{offered_in};
ghost use Rattle.buffer_state.specs.Run.{batch_call, walked_call, seek_call};
ghost use Rattle.call_rows.specs.Encoded.{mode_of, offered_of, lines_call, setting_call, ranges_call_of, call_of};
ghost use Rattle.call_rows.specs.Replies.{lent, reply_on, Stepped, Lined, Spanned, IsQuiet, counted, done, step_in};

use buffer_state::{
    Accepted, Head, Mode, Offered, Reading, Refusal, Start, Tags, Times, WindowEnd,
};

// The kinds of call. Up to REMOVE they are lent a fate list, from ABORT to READ none, the two reports a range list, a batch a fate list. A
// walk is told how many places a range list has; a seek is lent none.
pub const APPEND: u32 = 0;

pub const REMOVE: u32 = 1;

pub const ABORT: u32 = 2;

pub const MODE: u32 = 3;

pub const OFFSET: u32 = 4;

pub const WINDOW_START: u32 = 5;

pub const WINDOW_END: u32 = 6;

pub const READ: u32 = 7;

pub const TRACK_RANGES: u32 = 8;

pub const COMMON_RANGES: u32 = 9;

pub const BATCH: u32 = 10;

pub const WALKED: u32 = 11;

pub const SEEK: u32 = 12;

// What one call gave: its refusal number or 0; how many lines, ranges or doubles, or frames that a walk took or that a seek has to decode;
// of a batch, how many frames were accepted and the number of the refusal that stopped it or 0; of a seek, the numbers of its target and
// of the random access point from which to decode; the doubles of a reading; the head.
#[derive(Clone, Copy)]
pub struct Step {
    pub refusal: usize,
    pub count: usize,
    pub accepted: usize,
    pub stop: usize,
    pub target: usize,
    pub flagged: usize,
    pub doubles: [f64; 3],
    pub head: Head,
}

// What a call gives that is not refused: nothing; how many lines or ranges it wrote, or frames its walk took; or what it tells of the settings,
// of a batch or of where to start.
#[derive(Clone, Copy)]
pub enum Given {
    Nothing,
    Count(usize),
    Settings(Reading),
    Batch(Accepted),
    Decoding(Start),
}

impl Step {
    // What is not told is 0.
    fn of(given: Result<Given, Refusal>, head: Head) -> Step
        ensures { result ≡ step_in given head }
    {
        let none = Step {
            refusal: 0,
            count: 0,
            accepted: 0,
            stop: 0,
            target: 0,
            flagged: 0,
            doubles: [0.0; 3],
            head,
        };
        match given {
            Err(why) => Step {
                refusal: why.number() as usize,
                ..none
            },
            Ok(Given::Nothing) => none,
            Ok(Given::Count(count)) => Step { count, ..none },
            Ok(Given::Settings(r)) => match r.end {
                WindowEnd::Unbounded => Step {
                    count: 2,
                    doubles: [r.offset, r.start, 0.0],
                    ..none
                },
                WindowEnd::At(end) => Step {
                    count: 3,
                    doubles: [r.offset, r.start, end],
                    ..none
                },
            },
            Ok(Given::Batch(a)) => Step {
                count: a.lines,
                accepted: a.frames,
                stop: buffer_state::stop_number(a.stop) as usize,
                ..none
            },
            Ok(Given::Decoding(s)) => Step {
                count: s.count,
                target: s.target as usize,
                flagged: s.flagged as usize,
                ..none
            },
        }
    }
}

fn mode_of(n: u32) -> Mode
    ensures { result ≡ mode_of n }
{
    if n == 0 {
        Mode::Segments
    } else {
        Mode::Sequence
    }
}

fn offered_of(row: [u32; 5], stamps: [i64; 2]) -> Offered
    ensures { result ≡ offered_of row stamps }
{
    Offered {
        track: row[1],
        flagged: row[2] != 0,
        duration: row[3],
        pts: stamps[0],
        dts: stamps[1],
    }
}

// ---- one call

fn lines_call(
    h: &mut Head,
    row: [u32; 5],
    stamps: [i64; 2],
    seconds: [f64; 2],
    times: &mut Times,
    tags: &mut Tags,
    fates: &mut [[u32; 2]],
) -> Result<usize, Refusal>
    ensures { Lined (reply_on (lines_call row stamps seconds (length fates.old)) (lent h.old times.old tags.old)) (step_in (counted result) h.new) times.new tags.new fates.old fates.new }
{
    if row[0] == APPEND {
        return append::append(h, offered_of(row, stamps), times, tags, fates);
    }
    remove::remove(h, seconds[0], seconds[1], times, tags, fates)
}

fn setting_call(
    h: &mut Head,
    kind: u32,
    flag: u32,
    x: f64,
    times: &Times,
    tags: &Tags,
) -> Result<(), Refusal>
    ensures { IsQuiet (reply_on (setting_call kind flag x) (lent h.old times.now tags.now)) (step_in (done result) h.new) times.now tags.now }
{
    match kind {
        ABORT => settings::abort(h, times, tags),
        MODE => settings::set_mode(h, times, tags, mode_of(flag)),
        OFFSET => settings::set_offset(h, times, tags, x),
        WINDOW_START => settings::set_window_start(h, times, tags, x),
        _ => settings::set_window_end(h, times, tags, x),
    }
}

fn ranges_call(
    h: Head,
    row: [u32; 5],
    times: &Times,
    tags: &Tags,
    list: &mut [[i64; 2]],
) -> Result<usize, Refusal>
    ensures { Spanned (reply_on (ranges_call_of row (length list.old)) (lent h times.now tags.now)) (step_in (counted result) h) times.now tags.now list.old list.new }
{
    if row[0] == TRACK_RANGES {
        return ranges::track_ranges(h, times, tags, row[1], list);
    }
    ranges::common_ranges(h, times, tags, list)
}

// A call that `call_of` reads off the row.
fn called(
    h: &mut Head,
    row: [u32; 5],
    stamps: [i64; 2],
    seconds: [f64; 2],
    frames: &[[i64; 6]],
    times: &mut Times,
    tags: &mut Tags,
    fates: &mut [[u32; 2]],
    list: &mut [[i64; 2]],
) -> Result<Given, Refusal>
    ensures { Stepped (reply_on (call_of row stamps seconds frames.now (length fates.old) (length list.old)) (lent h.old times.old tags.old)) (step_in result h.new) times.new tags.new fates.old fates.new list.old list.new }
{
    match row[0] {
        APPEND | REMOVE => {
            lines_call(h, row, stamps, seconds, times, tags, fates).map(Given::Count)
        }
        kind @ ABORT..=WINDOW_END => {
            setting_call(h, kind, row[2], seconds[0], times, tags).and(Ok(Given::Nothing))
        }
        READ => settings::read_settings(*h, times, tags).map(Given::Settings),
        TRACK_RANGES | COMMON_RANGES => ranges_call(*h, row, times, tags, list).map(Given::Count),
        BATCH => batch::append_batch(h, frames, times, tags, fates).map(Given::Batch),
        WALKED => ranges::walked(*h, times, tags, row[1], list.len()).map(Given::Count),
        _ => seek::seek(*h, times, tags, row[1], stamps[0]).map(Given::Decoding),
    }
}

// How many frames the walk of a track's report takes where so many places are lent, of a list that it does not see.
pub fn walked_step(h: Head, track: u32, times: &Times, tags: &Tags, room: usize) -> Step
    ensures { IsQuiet (reply_on (walked_call room track) (lent h times.now tags.now)) result times.now tags.now }
{
    Step::of(
        ranges::walked(h, times, tags, track, room).map(Given::Count),
        h,
    )
}

// One call on any head and arrays: what it is, in numbers, and the lists lent to it. A kind above SEEK is taken for that one; `frames` are
// those of a batch.
pub fn make_call(
    h: Head,
    row: [u32; 5],
    stamps: [i64; 2],
    seconds: [f64; 2],
    frames: &[[i64; 6]],
    times: &mut Times,
    tags: &mut Tags,
    fates: &mut [[u32; 2]],
    list: &mut [[i64; 2]],
) -> Step
    ensures { Stepped (reply_on (call_of row stamps seconds frames.now (length fates.old) (length list.old)) (lent h times.old tags.old)) result times.new tags.new fates.old fates.new list.old list.new }
{
    let mut head = h;
    let given = called(
        &mut head, row, stamps, seconds, frames, times, tags, fates, list,
    );
    Step::of(given, head)
}
