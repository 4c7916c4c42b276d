// Pokes: one field of the state in a slot, written as it lies.
ghost use Rattle.std.specs.Prelude.{◌<◌, IfOk};
ghost use Rattle.buffer_state.specs.Limits.{places};

use crate::words::{Unmade, Words};
use buffer_state::{Mode, PLACES, Setting, WindowEnd};
use slots::{Beyond, Slot};
use text::read::{as_double, as_small, as_whole, small_of};

const TRACK: usize = 0; // the columns of a frame's tags

const FLAG: usize = 1;

const DURATION: usize = 2;

const NUMBER: usize = 3;

const GROUP: usize = 4;

// ---- what a word says of a field

// MAYBE of the protocol, `N`, `unset` or `unset:N`: whether the field is set, and the number that it keeps in either case.
#[derive(Clone, Copy, Debug)]
struct Kept {
    set: bool,
    micros: i64,
}

fn maybe(word: &[u8]) -> Result<Kept, Unmade> {
    let (set, micros) = match word.strip_prefix(b"unset:") {
        Some(kept) => (false, as_whole(kept)?),
        None if word == b"unset".as_slice() => (false, 0),
        None => (true, as_whole(word)?),
    };
    Ok(Kept { set, micros })
}

fn byte(word: &[u8]) -> Result<u8, Unmade> {
    u8::try_from(as_small(word)?).or(Err(Unmade::Declined))
}

fn flag(word: &[u8]) -> Result<bool, Unmade> {
    match as_small(word)? {
        0 => Ok(false),
        1 => Ok(true),
        _ => Err(Unmade::Declined),
    }
}

fn double(word: &[u8]) -> Result<f64, Unmade> {
    as_double(word).ok_or(Unmade::Unknown)
}

pub fn mode(word: &[u8]) -> Result<Mode, Unmade> {
    match word {
        b"segments" => Ok(Mode::Segments),
        b"sequence" => Ok(Mode::Sequence),
        _ => Err(Unmade::Unknown),
    }
}

// A place named from 1 to `most`, counted from 0.
fn place(words: &mut Words<'_>, most: usize) -> Result<usize, Unmade>
    ensures { IfOk result (λ at. at < most) }
{
    let at = words.small()?.checked_sub(1).ok_or(Unmade::Unknown)? as usize;
    if at < most {
        Ok(at)
    } else {
        Err(Unmade::Unknown)
    }
}

// ---- a track and a frame, each in its place

// `track I FIELD ..`
fn poke_track(slot: &mut Slot, mut words: Words<'_>) -> Result<(), Unmade> {
    let at = place(&mut words, 4)?;
    let field = words.word()?;
    let value = words.last()?;
    let track = &mut slot.head.tracks[at];
    let set = &mut slot.sets[at];
    match field {
        b"kind" => track.kind = byte(value)?,
        b"need" => track.need = flag(value)?,
        b"last-decode" => {
            let last = maybe(value)?;
            track.dts = last.micros;
            set.decode = last.set;
        }
        b"last-duration" => {
            let last = maybe(value)?;
            track.duration = small_of(last.micros)?;
            set.duration = last.set;
        }
        b"highest-end" => {
            let highest = maybe(value)?;
            track.end = highest.micros;
            set.end = highest.set;
        }
        _ => return Err(Unmade::Unknown),
    }
    track.known = set.decode && set.duration && set.end;
    Ok(())
}

// A group that its row has no room for stands beside it, for one frame at a time.
fn poke_frame_group(slot: &mut Slot, at: usize, group: i64) -> Result<(), Unmade>
    requires { at < places }
{
    let beside = slot.beyond.map(|beyond| beyond.place);
    if i64::from(u32::MAX) < group {
        if beside.is_some_and(|place| place != at) {
            return Err(Unmade::Declined);
        }
        slot.beyond = Some(Beyond { place: at, group });
        return Ok(());
    }
    slot.tags[at][GROUP] = small_of(group)?;
    if beside == Some(at) {
        slot.beyond = None;
    }
    Ok(())
}

// `frame I FIELD N`
fn poke_frame(slot: &mut Slot, mut words: Words<'_>) -> Result<(), Unmade> {
    let at = place(&mut words, PLACES)?;
    let field = words.word()?;
    let value = words.last()?;
    match field {
        b"track" => slot.tags[at][TRACK] = as_small(value)?,
        b"flag" => slot.tags[at][FLAG] = as_small(value)?,
        b"duration" => slot.tags[at][DURATION] = as_small(value)?,
        b"number" => slot.tags[at][NUMBER] = as_small(value)?,
        b"group" => poke_frame_group(slot, at, as_whole(value)?)?,
        b"p" => slot.times[at][0] = as_whole(value)?,
        b"d" => slot.times[at][1] = as_whole(value)?,
        _ => return Err(Unmade::Unknown),
    }
    Ok(())
}

// ---- the rest of the head

// `us` or `double`, the two halves of a setting.
fn poke_setting(setting: &mut Setting, half: &[u8], value: &[u8]) -> Result<(), Unmade> {
    match half {
        b"us" => setting.micros = as_whole(value)?,
        b"double" => setting.seconds = double(value)?,
        _ => return Err(Unmade::Unknown),
    }
    Ok(())
}

// The window end made bounded or unbounded, with a double kept beside it.
fn put_end(slot: &mut Slot, bounded: bool, seconds: f64) {
    if bounded {
        slot.head.settings.end = WindowEnd::At(seconds);
        slot.spare = 0.0;
    } else {
        slot.head.settings.end = WindowEnd::Unbounded;
        slot.spare = seconds;
    }
}

fn poke_end(slot: &mut Slot, half: &[u8], value: &[u8]) -> Result<(), Unmade> {
    let (bounded, kept) = match slot.head.settings.end {
        WindowEnd::At(seconds) => (true, seconds),
        WindowEnd::Unbounded => (false, slot.spare),
    };
    match half {
        b"us" => {
            let limit = maybe(value)?;
            slot.head.settings.limit = limit.micros;
            put_end(slot, limit.set, kept);
        }
        b"double" => put_end(slot, bounded, double(value)?),
        _ => return Err(Unmade::Unknown),
    }
    Ok(())
}

fn poke_settings(slot: &mut Slot, name: &[u8], value: &[u8]) -> Result<(), Unmade> {
    if let Some(half) = name.strip_prefix(b"offset-") {
        return poke_setting(&mut slot.head.settings.offset, half, value);
    }
    if let Some(half) = name.strip_prefix(b"window-start-") {
        return poke_setting(&mut slot.head.settings.start, half, value);
    }
    match name.strip_prefix(b"window-end-") {
        Some(half) => poke_end(slot, half, value),
        None => Err(Unmade::Unknown),
    }
}

fn poke_head(slot: &mut Slot, name: &[u8], value: &[u8]) -> Result<(), Unmade> {
    let head = &mut slot.head;
    match name {
        b"last-number" => head.last = as_small(value)?,
        b"tracks" => head.ntracks = as_small(value)? as usize,
        b"frames" => head.nframes = as_small(value)? as usize,
        b"mode" => head.mode = mode(value)?,
        b"group" => head.group.number = as_small(value)?,
        b"group-start" => {
            let start = maybe(value)?;
            head.group.begun = start.set;
            head.group.start = start.micros;
        }
        b"group-end" => head.group.end = as_whole(value)?,
        _ => poke_settings(slot, name, value)?,
    }
    Ok(())
}

// ---- any poke

// The words after `poke`. One that is not made leaves the slot as it was.
pub fn poke(slot: &mut Slot, mut words: Words<'_>) -> Result<(), Unmade> {
    match words.word()? {
        b"frame" => poke_frame(slot, words),
        b"track" => poke_track(slot, words),
        name => poke_head(slot, name, words.last()?),
    }
}
