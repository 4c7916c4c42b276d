// The types of a frame buffer's state, and what its calls are handed and answer. The caller owns the state: a Head by value, and the
// stored frames in two lent arrays of numbers, rows of times and rows of tags. specs/Lent.antt says how they hold a state; what each
// call does to it is defined in specs/, a file for each section of document 01.
#![tactic(auto)]

ghost use Rattle.std.specs.Prelude.{◌≡◌};
ghost use Rattle.buffer_state.specs.declared.Refusal.TheVariants.{Seconds};
ghost use Rattle.buffer_state.specs.Refusals.{refusal_number, stop_number};

use seconds::OutOfRange;

// A coded frame as offered to an append. Times are microseconds.
#[derive(Clone, Copy)]
pub struct Offered {
    pub track: u32,
    pub flagged: bool, // a random access point
    pub duration: u32,
    pub pts: i64, // presentation timestamp
    pub dts: i64, // decode timestamp
}

// A stored coded frame. Its times have the timestamp offset added.
#[derive(Clone, Copy)]
pub struct Frame {
    pub track: u32,
    pub flagged: bool,
    pub duration: u32,
    pub number: u32, // frame numbers are given from 1 in the order of the appends
    pub group: u32, // the number of the group in which it was stored
    pub pts: i64,
    pub dts: i64,
}

// A track buffer. The last decode timestamp, the last frame duration and the highest end timestamp are
// set together and unset together, so one flag says which; unset they are kept as zero.
#[derive(Clone, Copy)]
pub struct Track {
    pub kind: u8, // 0 video, 1 audio
    pub known: bool,
    pub need: bool, // need random access point
    pub duration: u32,
    pub dts: i64,
    pub end: i64,
}

#[derive(Clone, Copy)]
pub enum Mode {
    Segments,
    Sequence,
}

// The coded frame group: the group start timestamp (kept as zero where it is unset), the group end timestamp, and the group number.
#[derive(Clone, Copy)]
pub struct Group {
    pub begun: bool, // the group start is set
    pub start: i64,
    pub end: i64,
    pub number: u32, // from 0; it rises whenever the three values are unset on all tracks
}

// A setting: the double as it was given, bit for bit, beside its microseconds.
#[derive(Clone, Copy)]
pub struct Setting {
    pub seconds: f64,
    pub micros: i64,
}

// The append window's end: none, or the double given.
#[derive(Clone, Copy)]
pub enum WindowEnd {
    Unbounded,
    At(f64),
}

#[derive(Clone, Copy)]
pub struct Settings {
    pub offset: Setting, // timestamp offset
    pub start: Setting, // append window start
    pub end: WindowEnd,
    pub limit: i64, // the window end in microseconds, zero where there is none
}

// The places of the store, over all tracks; and the lines that a lent fate list needs, as each stored frame may go.
pub const PLACES: usize = 1024;

// The last group number.
pub const LAST_GROUP: u32 = 4294967295;

// The stored frames, which the caller lends: a row of times (presentation, decode) and a row of tags (track, flag, duration, number,
// group) for each place.
pub type Times = [[i64; 2]; PLACES];

pub type Tags = [[u32; 5]; PLACES];

// All of a state but its frames.
#[derive(Clone, Copy)]
pub struct Head {
    pub tracks: [Track; 4],
    pub ntracks: usize,
    pub nframes: usize, // how many places of the lent arrays are in use
    pub mode: Mode,
    pub group: Group,
    pub last: u32, // the last frame number given
    pub settings: Settings,
}

// Why a call is refused, by its refusal number in the table of documents 01 and 02.
#[derive(Clone, Copy, Debug, PartialEq, Eq)]
pub enum Refusal {
    IllFormed = 1,
    ShortFates = 2,
    NoTrack = 3,
    FrameLimits = 4,
    Seconds = 5,
    Order = 6,
    ResultLimits = 7,
    Full = 8,
    LastNumber = 9,
    ShortList = 10,
    Kinds = 11,
    Malformed = 12, // a segment; this and what follows are of document 02
    LentSize = 13, // what is lent has a size that the call does not take
    LargeFragment = 14, // a movie fragment box over 65,536 bytes, in lumps
    NoStart = 15, // no frame covers the instant, or no random access point leads to the one that does
}

impl Refusal {
    // The number that the table gives it.
    pub fn number(self) -> u32
        ensures { result ≡ refusal_number self }
    {
        self as u32
    }
}

impl From<OutOfRange> for Refusal {
    ghost from_gives = { λ _ why. why ≡ Seconds };

    fn from(_why: OutOfRange) -> Refusal {
        Refusal::Seconds
    }
}

// What reading the settings gives: the doubles kept, bit for bit, and the window end.
#[derive(Clone, Copy)]
pub struct Reading {
    pub offset: f64,
    pub start: f64,
    pub end: WindowEnd,
}

// What a batch gives: how many frames were accepted, how many fate lines were written, and the refusal of a frame that stopped it, if one did.
#[derive(Clone, Copy)]
pub struct Accepted {
    pub frames: usize,
    pub lines: usize,
    pub stop: Option<Refusal>,
}

// The number of what stopped a batch, 0 where nothing did.
pub fn stop_number(stop: Option<Refusal>) -> u32
    ensures { result ≡ stop_number stop }
{
    stop.map_or(0, Refusal::number)
}

// What a seek gives: the number of the frame that covers the instant, the number of the random access point from which to decode, and how
// many frames to decode from that one to the first, both counted.
#[derive(Clone, Copy)]
pub struct Start {
    pub target: u32,
    pub flagged: u32,
    pub count: usize,
}
