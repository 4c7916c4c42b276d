#![tactic(auto)]
// A script of calls on standard input, and an answer to each on standard output. What could not be read or written is told at the end, on
// standard error.
mod answers;
mod batches;
mod calls;
mod fault;
mod feed_words;
mod lines;
mod lump;
mod marks;
mod on_slot;
mod segment;
mod segment_words;
mod state;
mod unread;

use answers::{Answer, tell};
use arrayvec::ArrayVec;
use batches::{Batch, frame_of};
use buffer_state::PLACES;
use fault::Fault;
use lines::{Line, Lines};
use lump::Lumps;
use script::pokes;
use script::words::{Unmade, Words, natural};
use slots::{Session, Slot};
use std::io;
use std::io::{Read, Write};
use text::Output;
use unread::{Told, Unread};

// What is kept from line to line: the buffers; the reader of lumps, which needs none of them; the batch whose frames are to come.
#[derive(Drop)]
struct Replay {
    session: Session,
    lumps: Lumps,
    batch: Option<Batch>,
    unread: Unread,
}

impl Replay {
    fn new() -> Self {
        Replay {
            session: Session::new(),
            lumps: Lumps::new(),
            batch: None,
            unread: Unread::none(),
        }
    }

    // ---- a line

    // A line that a batch waits for, or one that has an answer of its own.
    fn on_line(&mut self, line: Line<'_>, out: &mut impl Write) -> io::Result<()> {
        if line.is_blank() {
            return Ok(());
        }
        let mut words = Words::of(line.text);
        let Ok(name) = words.word() else {
            return self.unknown(line, out);
        };
        if self.batch.is_some() && name == b"frame".as_slice() {
            return self.on_frame(line, words, out);
        }
        self.cut_short(out)?;
        if line.cut {
            return self.unknown(line, out);
        }
        match self.answer(line, name, words, out) {
            Ok(()) => Ok(()),
            Err(Fault::Unmade(Unmade::Unknown)) => self.unknown(line, out),
            Err(Fault::Unmade(why)) => writeln!(out, "{why}"),
            Err(Fault::Io(why)) => Err(why),
        }
    }

    // The line was not read.
    fn unknown(&mut self, line: Line<'_>, out: &mut impl Write) -> io::Result<()> {
        self.unread.note(Told::of(line));
        writeln!(out, "unknown")
    }

    fn answer(
        &mut self,
        line: Line<'_>,
        name: &[u8],
        words: Words<'_>,
        out: &mut impl Write,
    ) -> Result<(), Fault> {
        match name {
            b"batch" => self.begin_batch(line, words, out),
            b"segment" => segment::call(words, out),
            b"feed" => feed_words::call(words, out),
            b"lump" => self.lumps.call(words, out),
            b"lump-fresh" => self.lumps.fresh(words, out),
            _ => on_session(&mut self.session, name, words, out),
        }
    }

    // ---- a batch

    // Without the number of its frames no line after it is known to be one of them.
    fn begin_batch(
        &mut self,
        line: Line<'_>,
        mut words: Words<'_>,
        out: &mut impl Write,
    ) -> Result<(), Fault> {
        let left = words.natural()?;
        let lent = batches::lines(words).ok();
        if lent.is_none() {
            self.unread.note(Told::of(line));
        }
        self.batch = Some(Batch::new(Told::of(line), left, lent));
        self.go_on(out)
    }

    fn on_frame(
        &mut self,
        line: Line<'_>,
        words: Words<'_>,
        out: &mut impl Write,
    ) -> io::Result<()> {
        let frame = frame_of(line, words);
        if frame.is_err() {
            self.unread.note(Told::of(line));
        }
        if let Some(batch) = &mut self.batch {
            batch.come(frame);
        }
        match self.go_on(out) {
            Ok(()) => Ok(()),
            Err(Fault::Unmade(why)) => writeln!(out, "{why}"),
            Err(Fault::Io(why)) => Err(why),
        }
    }

    // A batch waits for its frames, and has its one answer once no frame is to come. Its lines that were not read are noted apart.
    fn go_on(&mut self, out: &mut impl Write) -> Result<(), Fault> {
        if self.batch.as_ref().is_some_and(|batch| 0 < batch.left) {
            return Ok(());
        }
        let Some(batch) = self.batch.take() else {
            return Ok(());
        };
        let Some(lines) = batch.lent else {
            writeln!(out, "unknown")?;
            return Ok(());
        };
        let slot = self.session.used_mut().ok_or(Unmade::NoBuffer)?;
        on_slot::batch(slot, &batch.frames, lines, out)?;
        Ok(())
    }

    // A batch whose frames do not all come, if there is one. Where each line that came was read, it is the batch's own that was not.
    fn cut_short(&mut self, out: &mut impl Write) -> io::Result<()> {
        let Some(batch) = self.batch.take() else {
            return Ok(());
        };
        if batch.lent.is_some() {
            self.unread.note(batch.line);
        }
        writeln!(out, "unknown")
    }
}

// ---- the session

// A call of this name on the session, or on the buffer of the slot in use.
fn on_session(
    session: &mut Session,
    name: &[u8],
    words: Words<'_>,
    out: &mut impl Write,
) -> Result<(), Fault> {
    match name {
        b"buffer" => use_slot(session, words)?,
        b"save" => {
            words.end()?;
            session.save().ok_or(Unmade::NoBuffer)?
        }
        b"restore" => {
            words.end()?;
            session.restore().ok_or(Unmade::NoBuffer)?
        }
        b"poke" => poke(session, words)?,
        b"create" => return create(session, words, out),
        b"state" => return tell_state(session, words, out),
        _ => return on_buffer(session, name, words, out),
    }
    tell(out, Ok(Answer::Done), true)?;
    Ok(())
}

fn use_slot(session: &mut Session, words: Words<'_>) -> Result<(), Unmade> {
    match words.last()? {
        b"1" => session.use_slot(false),
        b"2" => session.use_slot(true),
        _ => return Err(Unmade::Unknown),
    }
    Ok(())
}

fn poke(session: &mut Session, words: Words<'_>) -> Result<(), Unmade> {
    match session.used_mut() {
        Some(slot) => pokes::poke(slot, words),
        None => poke_nothing(words),
    }
}

// A poke that cannot be read is told before one that has no buffer, so that one is put to a buffer that no call is made on. In a frame of its
// own, so that no other poke lays that buffer out.
#[inline(never)]
fn poke_nothing(words: Words<'_>) -> Result<(), Unmade> {
    let mut stand_in = Slot::of(settings::no_head(), [[0; 2]; PLACES], [[0; 5]; PLACES]);
    match pokes::poke(&mut stand_in, words) {
        Err(Unmade::Unknown) => Err(Unmade::Unknown),
        _ => Err(Unmade::NoBuffer),
    }
}

// Any number from 0 up is a kind: one beyond a byte is as unknown as 255.
fn kind(word: &[u8]) -> Result<u8, Unmade> {
    Ok(u8::try_from(natural(word)?).unwrap_or(u8::MAX))
}

// The kinds of tracks, all the words that are left. One more is kept than a buffer has tracks, as more are refused alike.
fn kinds(words: Words<'_>) -> Result<ArrayVec<u8, 5>, Unmade> {
    let mut kinds = ArrayVec::new();
    if let Some(rest) = words.rest() {
        for word in rest.split(|b| *b == b' ') {
            let kind = kind(word)?;
            if !kinds.is_full() {
                kinds.push(kind);
            }
        }
    }
    Ok(kinds)
}

fn create(session: &mut Session, words: Words<'_>, out: &mut impl Write) -> Result<(), Fault> {
    let kinds = kinds(words)?;
    let given = slot_calls::create(session.slot_mut(), &kinds);
    tell(out, given.map(|_| Answer::Done), true)?;
    Ok(())
}

fn tell_state(session: &Session, words: Words<'_>, out: &mut impl Write) -> Result<(), Fault> {
    words.end()?;
    let slot = session.used().ok_or(Unmade::NoBuffer)?;
    tell(out, Ok(Answer::State(slot)), true)?;
    Ok(())
}

fn on_buffer(
    session: &mut Session,
    name: &[u8],
    words: Words<'_>,
    out: &mut impl Write,
) -> Result<(), Fault> {
    let call = calls::call_of(name, words)?;
    let slot = session.used_mut().ok_or(Unmade::NoBuffer)?;
    on_slot::call(slot, call, out)?;
    Ok(())
}

// ---- the run

fn answer_all<R: Read + Drop>(
    replay: &mut Replay,
    lines: &mut Lines<R>,
    out: &mut impl Write,
) -> io::Result<()> {
    for _ in 0..u64::MAX {
        if !lines.advance() {
            break;
        }
        replay.on_line(lines.line(), out)?;
    }
    replay.cut_short(out)
}

fn main(rt: HostRuntime) {
    let mut lines = Lines::new(rt.reader());
    let mut out = Output::new(rt.stdout());
    let mut replay = Replay::new();
    let _ = answer_all(&mut replay, &mut lines, &mut out); // each write to an Output is answered as done
    let mut error = rt.stderr();
    let _ = replay.unread.tell(&mut error); // where that fails, nothing more can be said
    out.tell_failed("replay", &mut error);
}
