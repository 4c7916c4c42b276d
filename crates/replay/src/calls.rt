// A line as a call on a buffer, all but creation, batches, pokes and the state.
use crate::marks::MOST_LENT;
use buffer_state::{Offered, PLACES};
use script::pokes::mode;
use script::words::{Unmade, Words};
use slot_calls::{LinesCall, RangesCall, SettingCall};

#[derive(Clone, Copy)]
pub enum Call {
    Lines { call: LinesCall, lines: usize },
    Setting(SettingCall),
    Settings,
    Ranges { call: RangesCall, places: usize },
    Walked { track: u32, places: usize },
    Seek { track: u32, instant: i64 },
}

// The five words of a frame.
pub fn offered(words: &mut Words<'_>) -> Result<Offered, Unmade> {
    let track = words.natural()?;
    let pts = words.whole()?;
    let dts = words.whole()?;
    let duration = words.small()?;
    let flagged = words.flag()?;
    Ok(Offered {
        track,
        flagged,
        duration,
        pts,
        dts,
    })
}

fn lines(words: &mut Words<'_>) -> Result<usize, Unmade> {
    Ok(words.lent(b"fates=", MOST_LENT)?.unwrap_or(PLACES))
}

fn places(words: &mut Words<'_>) -> Result<usize, Unmade> {
    Ok(words.lent(b"places=", MOST_LENT)?.unwrap_or(MOST_LENT))
}

fn append(words: &mut Words<'_>) -> Result<Call, Unmade> {
    Ok(Call::Lines {
        call: LinesCall::Append(offered(words)?),
        lines: lines(words)?,
    })
}

fn remove(words: &mut Words<'_>) -> Result<Call, Unmade> {
    let start = words.double()?;
    let end = words.double()?;
    Ok(Call::Lines {
        call: LinesCall::Remove(start, end),
        lines: lines(words)?,
    })
}

fn ranges(words: &mut Words<'_>) -> Result<Call, Unmade> {
    Ok(Call::Ranges {
        call: RangesCall::Track(words.natural()?),
        places: places(words)?,
    })
}

fn walked(words: &mut Words<'_>) -> Result<Call, Unmade> {
    Ok(Call::Walked {
        track: words.natural()?,
        places: places(words)?,
    })
}

fn seek(words: &mut Words<'_>) -> Result<Call, Unmade> {
    Ok(Call::Seek {
        track: words.natural()?,
        instant: words.whole()?,
    })
}

// The call of this name, by the words after it.
pub fn call_of(name: &[u8], mut words: Words<'_>) -> Result<Call, Unmade> {
    let call = match name {
        b"append" => append(&mut words)?,
        b"remove" => remove(&mut words)?,
        b"abort" => Call::Setting(SettingCall::Abort),
        b"mode" => Call::Setting(SettingCall::Mode(mode(words.word()?)?)),
        b"offset" => Call::Setting(SettingCall::Offset(words.double()?)),
        b"window-start" => Call::Setting(SettingCall::WindowStart(words.double()?)),
        b"window-end" => Call::Setting(SettingCall::WindowEnd(words.double()?)),
        b"settings" => Call::Settings,
        b"ranges" => ranges(&mut words)?,
        b"common" => Call::Ranges {
            call: RangesCall::Common,
            places: places(&mut words)?,
        },
        b"walked" => walked(&mut words)?,
        b"seek" => seek(&mut words)?,
        _ => return Err(Unmade::Unknown),
    };
    words.end()?;
    Ok(call)
}
