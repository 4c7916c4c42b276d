// What the answer lines say.
use crate::state::State;
use buffer_state::{Accepted, Reading, Refusal, Start, WindowEnd, stop_number};
use slots::Slot;
use std::io::Write;
use std::{fmt, io};
use text::{Bytes, Double, Fates, Ranges};

// The answer to a call that was not refused.
#[derive(Clone, Copy)]
pub enum Answer<'a> {
    Done,
    Fates(&'a [[u32; 2]]),
    Batch(Accepted, &'a [[u32; 2]]),
    Ranges(&'a [[i64; 2]]),
    Taken(usize),
    Start(Start),
    Settings(Reading),
    State(&'a Slot),
    Samples(&'a [[i64; 6]]),
    Fed(&'a [u8]),
}

impl fmt::Display for Answer<'_> {
    fn fmt<W: fmt::Write>(&self, f: &mut fmt::Formatter<W>) -> fmt::Result {
        match *self {
            Answer::Done => write!(f, "ok"),
            Answer::Fates(fates) => write!(f, "ok {}", Fates(fates)),
            Answer::Batch(given, fates) => batch(f, given, fates),
            Answer::Ranges(ranges) => write!(f, "ok {}", Ranges(ranges)),
            Answer::Taken(n) => write!(f, "ok taken {n}"),
            Answer::Start(start) => seek(f, start),
            Answer::Settings(kept) => settings(f, kept),
            Answer::State(slot) => write!(f, "ok {}", State(slot)),
            Answer::Samples(rows) => samples(f, rows),
            Answer::Fed(bytes) => write!(f, "ok feed {}", Bytes(bytes)),
        }
    }
}

fn batch<W: fmt::Write>(
    f: &mut fmt::Formatter<W>,
    given: Accepted,
    fates: &[[u32; 2]],
) -> fmt::Result {
    let accepted = given.frames;
    let stop = stop_number(given.stop);
    write!(f, "ok batch {accepted} {stop} {}", Fates(fates))
}

fn seek<W: fmt::Write>(f: &mut fmt::Formatter<W>, start: Start) -> fmt::Result {
    let Start {
        target,
        flagged,
        count,
    } = start;
    write!(f, "ok seek {target} {flagged} {count}")
}

fn settings<W: fmt::Write>(f: &mut fmt::Formatter<W>, kept: Reading) -> fmt::Result {
    let offset = Double(kept.offset);
    let start = Double(kept.start);
    match kept.end {
        WindowEnd::At(end) => write!(f, "ok settings {offset} {start} {}", Double(end)),
        WindowEnd::Unbounded => write!(f, "ok settings {offset} {start} unbounded"),
    }
}

fn samples<W: fmt::Write>(f: &mut fmt::Formatter<W>, rows: &[[i64; 6]]) -> fmt::Result {
    write!(f, "ok samples")?;
    for [track, pts, dts, duration, flag, size] in rows {
        write!(f, " ({track},{pts},{dts},{duration},{flag},{size})")?;
    }
    Ok(())
}

// The first n places of a list.
pub fn first<T>(list: &[T], n: usize) -> &[T] {
    list.get(..n).unwrap_or(list)
}

// The answer or the refusal, and a word where a place changed that the call must leave alone.
pub fn tell(
    out: &mut impl Write,
    answer: Result<Answer<'_>, Refusal>,
    untouched: bool,
) -> io::Result<()> {
    match answer {
        Ok(given) => write!(out, "{given}")?,
        Err(why) => write!(out, "refused {}", why.number())?,
    }
    if !untouched {
        write!(out, " touched")?;
    }
    writeln!(out)
}
