// The calls on the buffer of the slot in use, each with the lists that it is lent: they hold marks before it.
use crate::answers::{Answer, first, tell};
use crate::calls::Call;
use crate::marks::{LINE, MOST_LENT, TIME, untouched};
use slot_calls::{LinesCall, RangesCall};
use slots::Slot;
use std::io;
use std::io::Write;

// A call that writes fate lines, and gives how many.
fn lines_call(
    slot: &mut Slot,
    call: LinesCall,
    lines: usize,
    out: &mut impl Write,
) -> io::Result<()> {
    let mut lent = [[LINE; 2]; MOST_LENT];
    let fates: &mut [[u32; 2]] = &mut lent;
    let list = &mut fates[..lines.min(MOST_LENT)];
    let given = slot_calls::lines_call(slot, call, list);
    let kept = untouched(fates, given.unwrap_or(0), [LINE; 2]);
    tell(out, given.map(|n| Answer::Fates(first(fates, n))), kept)
}

fn ranges_call(
    slot: &Slot,
    call: RangesCall,
    places: usize,
    out: &mut impl Write,
) -> io::Result<()> {
    let mut lent = [[TIME; 2]; MOST_LENT];
    let ranges: &mut [[i64; 2]] = &mut lent;
    let list = &mut ranges[..places.min(MOST_LENT)];
    let given = slot_calls::ranges_call(slot, call, list);
    let kept = untouched(ranges, given.unwrap_or(0), [TIME; 2]);
    tell(out, given.map(|n| Answer::Ranges(first(ranges, n))), kept)
}

#[inline(never)]
pub fn batch(
    slot: &mut Slot,
    frames: &[[i64; 6]],
    lines: usize,
    out: &mut impl Write,
) -> io::Result<()> {
    let mut lent = [[LINE; 2]; MOST_LENT];
    let fates: &mut [[u32; 2]] = &mut lent;
    let list = &mut fates[..lines.min(MOST_LENT)];
    let given = slot_calls::batch(slot, frames, list);
    let kept = untouched(fates, given.map_or(0, |batched| batched.lines), [LINE; 2]);
    tell(
        out,
        given.map(|batched| Answer::Batch(batched, first(fates, batched.lines))),
        kept,
    )
}

// In a frame of its own, as `batch` is, so that its lists take no room on the stack while a lump is read.
#[inline(never)]
pub fn call(slot: &mut Slot, call: Call, out: &mut impl Write) -> io::Result<()> {
    match call {
        Call::Lines { call, lines } => lines_call(slot, call, lines, out),
        Call::Setting(call) => {
            let given = slot_calls::setting_call(slot, call);
            tell(out, given.map(|_| Answer::Done), true)
        }
        Call::Settings => {
            let given = slot_calls::read_settings(slot);
            tell(out, given.map(|kept| Answer::Settings(kept)), true)
        }
        Call::Ranges { call, places } => ranges_call(slot, call, places, out),
        Call::Walked { track, places } => {
            let given = slot_calls::walked(slot, track, places);
            tell(out, given.map(|n| Answer::Taken(n)), true)
        }
        Call::Seek { track, instant } => {
            let given = slot_calls::seek(slot, track, instant);
            tell(out, given.map(|start| Answer::Start(start)), true)
        }
    }
}
