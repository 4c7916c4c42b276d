// The whole state of a buffer, as the call `state` answers it: also what pokes left is told as it lies.
use buffer_state::{Frame, Group, Mode, Setting, Settings, Track, WindowEnd};
use slots::Slot;
use std::fmt;
use text::Double;

#[derive(Clone, Copy)]
pub struct State<'a>(pub &'a Slot);

impl fmt::Display for State<'_> {
    fn fmt<W: fmt::Write>(&self, f: &mut fmt::Formatter<W>) -> fmt::Result {
        let head = &self.0.head;
        write!(f, "state tracks=")?;
        for (i, track) in head.tracks.iter().take(head.ntracks).enumerate() {
            kind(f, i, *track)?;
        }
        group(f, head.last, head.mode, head.group)?;
        settings(f, head.settings)?;
        for (i, track) in head.tracks.iter().take(head.ntracks).enumerate() {
            track_values(f, i, *track)?;
        }
        write!(f, " frames={}", head.nframes)?;
        let rows = self.0.times.iter().zip(self.0.tags.iter());
        for (place, (times, tags)) in rows.take(head.nframes).enumerate() {
            let beside = self.0.beyond.filter(|beyond| beyond.place == place);
            frame(f, *times, *tags, beside.map(|beyond| beyond.group))?;
        }
        Ok(())
    }
}

// A value that need not be set.
#[derive(Clone, Copy)]
struct Maybe(Option<i64>);

impl fmt::Display for Maybe {
    fn fmt<W: fmt::Write>(&self, f: &mut fmt::Formatter<W>) -> fmt::Result {
        match self.0 {
            Some(value) => write!(f, "{value}"),
            None => write!(f, "unset"),
        }
    }
}

// A time in its two halves.
#[derive(Clone, Copy)]
struct Halves(Setting);

impl fmt::Display for Halves {
    fn fmt<W: fmt::Write>(&self, f: &mut fmt::Formatter<W>) -> fmt::Result {
        let micros = self.0.micros;
        write!(f, "{micros}/{}", Double(self.0.seconds))
    }
}

fn kind<W: fmt::Write>(f: &mut fmt::Formatter<W>, i: usize, track: Track) -> fmt::Result {
    let kind = track.kind;
    if i == 0 {
        write!(f, "{kind}")
    } else {
        write!(f, ",{kind}")
    }
}

fn group<W: fmt::Write>(
    f: &mut fmt::Formatter<W>,
    last: u32,
    mode: Mode,
    group: Group,
) -> fmt::Result {
    let mode = match mode {
        Mode::Segments => "segments",
        Mode::Sequence => "sequence",
    };
    let start = Maybe(group.begun.then_some(group.start));
    let end = group.end;
    let number = group.number;
    write!(
        f,
        " last={last} group={number} mode={mode} group-start={start} group-end={end}"
    )
}

fn settings<W: fmt::Write>(f: &mut fmt::Formatter<W>, kept: Settings) -> fmt::Result {
    write!(f, " offset={}", Halves(kept.offset))?;
    write!(f, " window-start={}", Halves(kept.start))?;
    match kept.end {
        WindowEnd::Unbounded => write!(f, " window-end=unbounded"),
        WindowEnd::At(seconds) => {
            let micros = kept.limit;
            write!(f, " window-end={}", Halves(Setting { seconds, micros }))
        }
    }
}

fn track_values<W: fmt::Write>(f: &mut fmt::Formatter<W>, i: usize, track: Track) -> fmt::Result {
    let number = i.saturating_add(1);
    let decode = Maybe(track.known.then_some(track.dts));
    let duration = Maybe(track.known.then_some(i64::from(track.duration)));
    let end = Maybe(track.known.then_some(track.end));
    let need = if track.need { "need" } else { "clear" };
    write!(f, " track{number}={decode},{duration},{end},{need}")
}

// A frame, with its group beside the row where the row has no room for it.
fn frame<W: fmt::Write>(
    f: &mut fmt::Formatter<W>,
    times: [i64; 2],
    tags: [u32; 5],
    beside: Option<i64>,
) -> fmt::Result {
    let Frame {
        track,
        flagged,
        duration,
        number,
        group,
        pts,
        dts,
    } = places::frame_of(times, tags);
    let flag = u8::from(flagged);
    let group = beside.unwrap_or(i64::from(group));
    write!(
        f,
        " ({track},{number},{pts},{dts},{duration},{flag},{group})"
    )
}
