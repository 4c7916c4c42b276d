#![tactic(auto)]
// The buffer's calls on a slot. A call that may change the head is lent the one that the slot hands out, and where it is not refused the
// slot takes it back; a refused call leaves the slot whole.
ghost use Rattle.std.specs.Prelude.{◌≡◌, map, length, Some};
ghost use Rattle.buffer_state.specs.Answers.{set_answer, abort_result, mode_result, offset_result, window_start_result, window_end_result, settings_result, line_count, list_after, append_result, remove_result, batch_answer, outcome_of, batch_result, range_count, ranges_after, track_ranges_result, common_ranges_result, walked_result, seek_result};
ghost use Rattle.buffer_state.specs.Batch.{offered_in};
ghost use Rattle.buffer_state.specs.Settings.{create};
ghost use Rattle.slot_calls.specs.SlotCalls.{on_slot, slot_created, slot_set, slot_after, lines_result, setting_result, ranges_result};

use buffer_state::{Accepted, Mode, Offered, PLACES, Reading, Refusal, Start};
use slots::Slot;

// ---- creation

// A buffer in the place of another, in its arrays.
fn create_over(held: &mut Slot, kinds: &[u8]) -> Result<(), Refusal>
    ensures answer { result ≡ set_answer (create kinds.now) }
    ensures slot { Some held.new ≡ slot_created (create kinds.now) (Some held.old) }
{
    let head = settings::create(kinds, &mut held.times, &mut held.tags)?;
    held.put_head(head);
    Ok(())
}

// The first buffer of a slot. Apart, so that only this creation lays out arrays of its own and clears them.
fn create_first(slot: &mut Option<Slot>, kinds: &[u8]) -> Result<(), Refusal>
    ensures answer { result ≡ set_answer (create kinds.now) }
    ensures slot { slot.new ≡ slot_created (create kinds.now) slot.old }
{
    let mut times = [[0; 2]; PLACES];
    let mut tags = [[0; 5]; PLACES];
    let head = settings::create(kinds, &mut times, &mut tags)?;
    *slot = Some(Slot::of(head, times, tags));
    Ok(())
}

pub fn create(slot: &mut Option<Slot>, kinds: &[u8]) -> Result<(), Refusal>
    ensures answer { result ≡ set_answer (create kinds.now) }
    ensures slot { slot.new ≡ slot_created (create kinds.now) slot.old }
{
    match slot {
        Some(held) => create_over(held, kinds),
        None => create_first(slot, kinds),
    }
}

// ---- append, remove and a batch

pub fn append(slot: &mut Slot, offered: Offered, fates: &mut [[u32; 2]]) -> Result<usize, Refusal>
    ensures answer { result ≡ line_count (on_slot (append_result (length fates.old) offered) slot.old) }
    ensures slot { slot.new ≡ slot_after (on_slot (append_result (length fates.old) offered) slot.old) slot.old }
    ensures lines { fates.new ≡ list_after (on_slot (append_result (length fates.old) offered) slot.old) fates.old }
{
    let mut head = slot.handed();
    let lines = append::append(&mut head, offered, &mut slot.times, &mut slot.tags, fates)?;
    slot.put_head(head);
    Ok(lines)
}

pub fn batch(
    slot: &mut Slot,
    frames: &[[i64; 6]],
    fates: &mut [[u32; 2]],
) -> Result<Accepted, Refusal>
    ensures answer { result ≡ batch_answer (on_slot (batch_result (length fates.old) (map offered_in frames.now)) slot.old) }
    ensures slot { slot.new ≡ slot_after (outcome_of (on_slot (batch_result (length fates.old) (map offered_in frames.now)) slot.old)) slot.old }
    ensures lines { fates.new ≡ list_after (outcome_of (on_slot (batch_result (length fates.old) (map offered_in frames.now)) slot.old)) fates.old }
{
    let mut head = slot.handed();
    let accepted = batch::append_batch(&mut head, frames, &mut slot.times, &mut slot.tags, fates)?;
    slot.put_head(head);
    Ok(accepted)
}

pub fn remove(
    slot: &mut Slot,
    start: f64,
    end: f64,
    fates: &mut [[u32; 2]],
) -> Result<usize, Refusal>
    ensures answer { result ≡ line_count (on_slot (remove_result (length fates.old) start end) slot.old) }
    ensures slot { slot.new ≡ slot_after (on_slot (remove_result (length fates.old) start end) slot.old) slot.old }
    ensures lines { fates.new ≡ list_after (on_slot (remove_result (length fates.old) start end) slot.old) fates.old }
{
    let mut head = slot.handed();
    let lines = remove::remove(
        &mut head,
        start,
        end,
        &mut slot.times,
        &mut slot.tags,
        fates,
    )?;
    slot.put_head(head);
    Ok(lines)
}

// ---- abort and the setters

pub fn abort(slot: &mut Slot) -> Result<(), Refusal>
    ensures answer { result ≡ set_answer (on_slot abort_result slot.old) }
    ensures slot { slot.new ≡ slot_set (on_slot abort_result slot.old) slot.old }
{
    let mut head = slot.handed();
    settings::abort(&mut head, &slot.times, &slot.tags)?;
    slot.put_head(head);
    Ok(())
}

pub fn set_mode(slot: &mut Slot, mode: Mode) -> Result<(), Refusal>
    ensures answer { result ≡ set_answer (on_slot (mode_result mode) slot.old) }
    ensures slot { slot.new ≡ slot_set (on_slot (mode_result mode) slot.old) slot.old }
{
    let mut head = slot.handed();
    settings::set_mode(&mut head, &slot.times, &slot.tags, mode)?;
    slot.put_head(head);
    Ok(())
}

pub fn set_offset(slot: &mut Slot, seconds: f64) -> Result<(), Refusal>
    ensures answer { result ≡ set_answer (on_slot (offset_result seconds) slot.old) }
    ensures slot { slot.new ≡ slot_set (on_slot (offset_result seconds) slot.old) slot.old }
{
    let mut head = slot.handed();
    settings::set_offset(&mut head, &slot.times, &slot.tags, seconds)?;
    slot.put_head(head);
    Ok(())
}

pub fn set_window_start(slot: &mut Slot, seconds: f64) -> Result<(), Refusal>
    ensures answer { result ≡ set_answer (on_slot (window_start_result seconds) slot.old) }
    ensures slot { slot.new ≡ slot_set (on_slot (window_start_result seconds) slot.old) slot.old }
{
    let mut head = slot.handed();
    settings::set_window_start(&mut head, &slot.times, &slot.tags, seconds)?;
    slot.put_head(head);
    Ok(())
}

pub fn set_window_end(slot: &mut Slot, seconds: f64) -> Result<(), Refusal>
    ensures answer { result ≡ set_answer (on_slot (window_end_result seconds) slot.old) }
    ensures slot { slot.new ≡ slot_set (on_slot (window_end_result seconds) slot.old) slot.old }
{
    let mut head = slot.handed();
    settings::set_window_end(&mut head, &slot.times, &slot.tags, seconds)?;
    slot.put_head(head);
    Ok(())
}

// ---- what only reads

pub fn read_settings(slot: &Slot) -> Result<Reading, Refusal>
    ensures { result ≡ on_slot settings_result slot.now }
{
    settings::read_settings(slot.handed(), &slot.times, &slot.tags)
}

pub fn track_ranges(slot: &Slot, track: u32, list: &mut [[i64; 2]]) -> Result<usize, Refusal>
    ensures answer { result ≡ range_count (on_slot (track_ranges_result (length list.old) track) slot.now) }
    ensures list { list.new ≡ ranges_after (on_slot (track_ranges_result (length list.old) track) slot.now) list.old }
{
    ranges::track_ranges(slot.handed(), &slot.times, &slot.tags, track, list)
}

pub fn common_ranges(slot: &Slot, list: &mut [[i64; 2]]) -> Result<usize, Refusal>
    ensures answer { result ≡ range_count (on_slot (common_ranges_result (length list.old)) slot.now) }
    ensures list { list.new ≡ ranges_after (on_slot (common_ranges_result (length list.old)) slot.now) list.old }
{
    ranges::common_ranges(slot.handed(), &slot.times, &slot.tags, list)
}

pub fn walked(slot: &Slot, track: u32, places: usize) -> Result<usize, Refusal>
    ensures { result ≡ on_slot (walked_result places track) slot.now }
{
    ranges::walked(slot.handed(), &slot.times, &slot.tags, track, places)
}

pub fn seek(slot: &Slot, track: u32, instant: i64) -> Result<Start, Refusal>
    ensures { result ≡ on_slot (seek_result track instant) slot.now }
{
    seek::seek(slot.handed(), &slot.times, &slot.tags, track, instant)
}

// ---- by which call is asked for

/// A call that writes fate lines.
#[derive(Clone, Copy)]
pub enum LinesCall {
    Append(Offered),
    Remove(f64, f64), // from a start to an end
}

pub fn lines_call(
    slot: &mut Slot,
    call: LinesCall,
    fates: &mut [[u32; 2]],
) -> Result<usize, Refusal>
    ensures answer { result ≡ line_count (on_slot (lines_result call (length fates.old)) slot.old) }
    ensures slot { slot.new ≡ slot_after (on_slot (lines_result call (length fates.old)) slot.old) slot.old }
    ensures lines { fates.new ≡ list_after (on_slot (lines_result call (length fates.old)) slot.old) fates.old }
{
    match call {
        LinesCall::Append(offered) => append(slot, offered, fates),
        LinesCall::Remove(from, to) => remove(slot, from, to, fates),
    }
}

/// A call that changes all but the frames, and gives nothing.
#[derive(Clone, Copy)]
pub enum SettingCall {
    Abort,
    Mode(Mode),
    Offset(f64),
    WindowStart(f64),
    WindowEnd(f64),
}

pub fn setting_call(slot: &mut Slot, call: SettingCall) -> Result<(), Refusal>
    ensures answer { result ≡ set_answer (on_slot (setting_result call) slot.old) }
    ensures slot { slot.new ≡ slot_set (on_slot (setting_result call) slot.old) slot.old }
{
    match call {
        SettingCall::Abort => abort(slot),
        SettingCall::Mode(mode) => set_mode(slot, mode),
        SettingCall::Offset(seconds) => set_offset(slot, seconds),
        SettingCall::WindowStart(seconds) => set_window_start(slot, seconds),
        SettingCall::WindowEnd(seconds) => set_window_end(slot, seconds),
    }
}

/// A report, of one track or of all.
#[derive(Clone, Copy)]
pub enum RangesCall {
    Track(u32),
    Common,
}

pub fn ranges_call(slot: &Slot, call: RangesCall, list: &mut [[i64; 2]]) -> Result<usize, Refusal>
    ensures answer { result ≡ range_count (on_slot (ranges_result call (length list.old)) slot.now) }
    ensures list { list.new ≡ ranges_after (on_slot (ranges_result call (length list.old)) slot.now) list.old }
{
    match call {
        RangesCall::Track(track) => track_ranges(slot, track, list),
        RangesCall::Common => common_ranges(slot, list),
    }
}
