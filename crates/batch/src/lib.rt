// Appending a batch: the frames of a whole segment, one by one, to a state that is tested once. An append leaves a well-formed state
// well-formed, so that none is tested again; and a frame that comes after all of its track is stored without a search for what it overlaps.
#![tactic(auto)]

ghost use Rattle.std.specs.Prelude.{◌≡◌, true, Ok, cond, map, ◌++◌, ◌+◌, ◌≤◌, ◌<◌, pos, ◌+ℤ◌, length, take, drop};
ghost use Rattle.std.specs.Int.Signed.{le_z};
ghost use Rattle.buffer_state.specs.Answers.{line_count, head_after, times_after, tags_after, list_after, append_result, batch_answer, outcome_of, batch_result};
ghost use Rattle.buffer_state.specs.Batch.{field_in, is_flag, offered_in, most_frames, batch_lines};
ghost use Rattle.buffer_state.specs.Buffer.{Buffer, track_of};
ghost use Rattle.buffer_state.specs.Lent.{frames_of, head_of, well_formed_at};
ghost use Rattle.buffer_state.specs.Limits.{result_time, places};
ghost use Rattle.heads.specs.Heads.{HasTrack};
ghost use Rattle.append.specs.Settled.{Before};
ghost use Rattle.batch.specs.Bounds.{bound_at, IsBounded};
ghost use Rattle.batch.specs.Each.{each_at};

use buffer_state::{Accepted, Head, Offered, PLACES, Refusal, Tags, Times};

const MOST_FRAMES: usize = 64;

const LINES: usize = PLACES + MOST_FRAMES; // a line for each frame that can be stored, and for each of a batch

// ---- a row as an offered frame

// 0 where the number does not fit.
fn field_in(z: i64) -> u32
    ensures { result ≡ field_in z }
{
    if limits::below(z, 0) | limits::below(4294967295, z) {
        return 0;
    }
    z as u32
}

fn is_flag(z: i64) -> bool
    ensures { result ≡ is_flag z }
{
    limits::at_most(0, z) & limits::at_most(z, 1)
}

// Of a frame whose flag is neither 0 nor 1 the duration is 0, which is outside the limit of a duration.
fn duration_in(flag: i64, duration: i64) -> u32
    ensures { result ≡ cond (is_flag flag) (field_in duration) 0 }
{
    if is_flag(flag) {
        return field_in(duration);
    }
    0
}

fn offered_in(row: [i64; 6]) -> Offered
    ensures { result ≡ offered_in row }
{
    let flag = row[4];
    let track = field_in(row[0]);
    let flagged = limits::same_int(flag, 1);
    let duration = duration_in(flag, row[3]);
    Offered {
        track,
        flagged,
        duration,
        pts: row[1],
        dts: row[2],
    }
}

// ---- the bounds of the tracks

fn later(a: i64, b: i64) -> i64
    ensures { (le_z a result ≡ true) × (le_z b result ≡ true) }
{
    a.max(b)
}

// The microsecond after a time inside the limits.
fn next_micro(z: i64) -> i64
    requires { result_time z ≡ true }
    ensures { result ≡ z +ℤ pos 1 }
{
    z + 1
}

// One pass over the stored frames. Each track number has its bound among five, the first unused.
fn bounds_of(h: Head, times: &[[i64; 2]], tags: &[[u32; 5]]) -> [i64; 5]
    requires { well_formed_at h times.now tags.now ≡ true }
    ensures { IsBounded result (take h.nframes (frames_of times.now tags.now)) }
{
    let mut bounds = [0i64; 5];
    for i in 0..h.nframes {
        let g = places::frame_at(times, tags, i);
        let k = g.track as usize;
        bounds[k] = later(bounds[k], next_micro(g.pts));
    }
    bounds
}

// A track without a bound has no frames, and 0 stands for it.
fn bound_of(bounds: [i64; 5], track: u32) -> i64
    ensures { result ≡ bound_at bounds track }
{
    let i = track as usize;
    if 5 <= i {
        return 0;
    }
    bounds[i]
}

// The bound of a track that has a frame more: it is presented before the track's highest end.
fn bound_after(old: i64, h: Head, track: u32) -> i64
    requires { HasTrack h track }
    ensures { (le_z old result ≡ true) × ((b : Buffer) → h ≡ head_of b → le_z (track_of b track).end result ≡ true) }
{
    let end = heads::track_of(h, track).end;
    later(old, end)
}

// ---- the appends

// One frame, its lines after those that are written already: what goes on from where its track stands is stored without a search. How many
// lines it wrote.
fn append_at(
    h: &mut Head,
    f: Offered,
    bound: i64,
    times: &mut [[i64; 2]],
    tags: &mut [[u32; 5]],
    fates: &mut [[u32; 2]],
    at: usize,
) -> Result<usize, Refusal>
    requires { (well_formed_at h.old times.old tags.old ≡ true) × Before f.track bound (take h.old.nframes (frames_of times.old tags.old)) × (at + h.old.nframes < length fates.old) }
    ensures answer { result ≡ line_count (append_result places f h.old times.old tags.old) }
    ensures head { h.new ≡ head_after (append_result places f h.old times.old tags.old) h.old }
    ensures times { times.new ≡ times_after (append_result places f h.old times.old tags.old) times.old }
    ensures tags { tags.new ≡ tags_after (append_result places f h.old times.old tags.old) tags.old }
    ensures lines { fates.new ≡ take at fates.old ++ list_after (append_result places f h.old times.old tags.old) (drop at fates.old) }
{
    if let Some(g) = append::follows(*h, f, bound) {
        append::put_next(h, g, times, tags);
        return Ok(0);
    }
    append::append_tested(h, f, bound, times, tags, &mut fates[at..])
}

// Every frame up to the first that is refused, which stops the batch.
fn append_each(
    h: &mut Head,
    frames: &[[i64; 6]],
    times: &mut [[i64; 2]],
    tags: &mut [[u32; 5]],
    fates: &mut [[u32; 2]],
) -> Accepted
    requires { (well_formed_at h.old times.old tags.old ≡ true) × (length frames.now ≤ most_frames) × (batch_lines ≤ length fates.old) }
    ensures answer { Ok result ≡ batch_answer (each_at frames.now h.old times.old tags.old) }
    ensures head { h.new ≡ head_after (outcome_of (each_at frames.now h.old times.old tags.old)) h.old }
    ensures times { times.new ≡ times_after (outcome_of (each_at frames.now h.old times.old tags.old)) times.old }
    ensures tags { tags.new ≡ tags_after (outcome_of (each_at frames.now h.old times.old tags.old)) tags.old }
    ensures lines { fates.new ≡ list_after (outcome_of (each_at frames.now h.old times.old tags.old)) fates.old }
{
    let mut bounds = bounds_of(*h, times, tags);
    let mut at: usize = 0;
    for (i, row) in frames.iter().enumerate() {
        let f = offered_in(*row);
        let bound = bound_of(bounds, f.track);
        match append_at(h, f, bound, times, tags, fates, at) {
            Ok(lines) => {
                at += lines;
                let k = f.track as usize;
                bounds[k] = bound_after(bounds[k], *h, f.track);
            }
            Err(why) => {
                return Accepted {
                    frames: i,
                    lines: at,
                    stop: Some(why),
                };
            }
        }
    }
    Accepted {
        frames: frames.len(),
        lines: at,
        stop: None,
    }
}

// ---- the call

// Append up to 64 frames: refusals 1, 13 and 2 of the whole call in that order, also where there is no frame; else every frame up to the
// first that is refused. A row is one that reading a segment lists.
pub fn append_batch(
    h: &mut Head,
    frames: &[[i64; 6]],
    times: &mut Times,
    tags: &mut Tags,
    fates: &mut [[u32; 2]],
) -> Result<Accepted, Refusal>
    ensures answer { result ≡ batch_answer (batch_result (length fates.old) (map offered_in frames.now) h.old times.old tags.old) }
    ensures head { h.new ≡ head_after (outcome_of (batch_result (length fates.old) (map offered_in frames.now) h.old times.old tags.old)) h.old }
    ensures times { times.new ≡ times_after (outcome_of (batch_result (length fates.old) (map offered_in frames.now) h.old times.old tags.old)) times.old }
    ensures tags { tags.new ≡ tags_after (outcome_of (batch_result (length fates.old) (map offered_in frames.now) h.old times.old tags.old)) tags.old }
    ensures lines { fates.new ≡ list_after (outcome_of (batch_result (length fates.old) (map offered_in frames.now) h.old times.old tags.old)) fates.old }
{
    validation::check(h, times, tags)?;
    if MOST_FRAMES < frames.len() {
        return Err(Refusal::LentSize);
    }
    if fates.len() < LINES {
        return Err(Refusal::ShortFates);
    }
    Ok(append_each(h, frames, times, tags, fates))
}
