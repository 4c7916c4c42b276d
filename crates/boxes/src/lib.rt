// Boxes of ISO/IEC 14496-12 over a lent slice: big-endian numbers, a cursor, over it a reader that hands out the boxes one by one, and the
// one box of a type that a body must have. Each body is handed on as a part of the slice.
#![tactic(auto)]

ghost use Rattle.std.specs.Prelude.{◌≡◌, ◌+◌, ◌≤◌, ◌<◌, ℕ, List, None, IfOk, length, drop};
ghost use Rattle.buffer_state.specs.declared.Refusal.TheVariants as refusals;
ghost use Rattle.boxes.specs.Boxes.{be4, be8, sized_of, front_of, past_front, boxes_of, Gives, Takes, body_start, body_at, Stands};
ghost use Rattle.boxes.specs.Lone.{lone_in, place_of, IsPart};

use buffer_state::Refusal;
use std::marker::Model;

/// Bytes are not what they should be.
#[derive(Clone, Copy, Debug, PartialEq, Eq)]
pub struct Malformed;

/// To a call it is refusal 12.
impl From<Malformed> for Refusal {
    ghost from_gives = { λ _ why. why ≡ refusals.Malformed };

    fn from(_e: Malformed) -> Refusal {
        Refusal::Malformed
    }
}

/// A box's type, and its header's length and its own size, in bytes.
#[derive(Clone, Copy, Debug)]
pub struct Header {
    pub kind: u32,
    pub length: usize,
    pub size: usize,
}

/// A box: its type, and its body as a part of the slice.
#[derive(Clone, Copy, Debug)]
pub struct BoxPart<'a> {
    pub kind: u32,
    pub body: &'a [u8],
}

// ---- big-endian numbers
// One function for each width: `from_be_bytes` is of each type by itself, so that one over both would be no plainer.

/// The number in 4 bytes from a place on.
#[tactic(auto, using(crate::proofs::BoxLaws::be4_read))]
pub fn read4(s: &[u8], at: usize) -> u32
    requires { at + 4 ≤ length s.now }
    ensures { result ≡ be4 (drop at s.now) }
{
    u32::from_be_bytes(*s[at..].first_chunk::<4>().unwrap())
}

/// The number in 8 bytes from a place on.
#[tactic(auto, using(crate::proofs::BoxLaws::be8_read))]
pub fn read8(s: &[u8], at: usize) -> u64
    requires { at + 8 ≤ length s.now }
    ensures { result ≡ be8 (drop at s.now) }
{
    u64::from_be_bytes(*s[at..].first_chunk::<8>().unwrap())
}

// ---- a box

/// A box of this size, if its header and it fit.
fn sized(s: &[u8], header: usize, size: u64) -> Result<Option<Header>, Malformed>
    requires { 8 ≤ length s.now }
    ensures { result ≡ sized_of s.now header size }
{
    let size = size as usize;
    if size < header {
        return Err(Malformed);
    }
    if s.len() < size {
        return Err(Malformed);
    }
    let kind = read4(s, 4);
    Ok(Some(Header {
        kind,
        length: header,
        size,
    }))
}

/// The box at the front of a slice, none where nothing is left.
pub fn first_box(s: &[u8]) -> Result<Option<Header>, Malformed>
    ensures { result ≡ front_of s.now }
{
    if s.len() == 0 {
        return Ok(None);
    }
    if s.len() < 8 {
        return Err(Malformed);
    }
    let size = read4(s, 0);
    if size == 1 {
        if s.len() < 16 {
            return Err(Malformed);
        }
        return sized(s, 16, read8(s, 8));
    }
    sized(s, 8, u64::from(size))
}

/// A place in a slice.
#[derive(Clone, Copy, Debug)]
pub struct Cursor {
    pub at: usize,
}

impl Cursor {
    /// The box at the place, or none at the slice's end. The place moves past the box; an error leaves it.
    pub fn next_box<'a>(&mut self, s: &'a [u8]) -> Result<Option<BoxPart<'a>>, Malformed>
        requires { self.old.at ≤ length s.now }
        ensures step { Takes result (drop self.old.at s.now) (drop self.new.at s.now) }
        ensures place { self.new.at ≡ self.old.at + past_front (drop self.old.at s.now) }
        ensures within { self.new.at ≤ length s.now }
        ensures stands { Stands result (body_at s.entry.ref_ptr s.now self.old.at) }
    {
        let rest = &s[self.at..];
        let Some(header) = first_box(rest)? else {
            return Ok(None);
        };
        self.at += header.size;
        Ok(Some(BoxPart {
            kind: header.kind,
            body: &rest[header.length..header.size],
        }))
    }
}

/// A slice, and the place where its next box begins. A contract sees the bytes from there on.
#[derive(Drop)]
pub struct BoxReader<'a> {
    s: &'a [u8],
    cursor: Cursor,
}

impl<'a> Model for BoxReader<'a> {
    ghost Value = { List ℕ };

    ghost view = { λ r. drop r.cursor.at r.s.now };

    ghost invariant = { λ r. r.cursor.at ≤ length r.s.now };
}

impl<'a> BoxReader<'a> {
    /// A reader at the slice's start.
    pub fn new(s: &'a [u8]) -> Self
        ensures { result ≡ s.entry.now }
    {
        BoxReader {
            s,
            cursor: Cursor { at: 0 },
        }
    }

    /// The next box, or none at the end. An error leaves the reader where it is.
    pub fn next_box(&mut self) -> Result<Option<BoxPart<'a>>, Malformed>
        ensures { Takes result self.old self.new }
    {
        self.cursor.next_box(self.s)
    }
}

/// The boxes of a slice. Bytes that are no box come last, as an error.
impl<'a> Iterator for BoxReader<'a> {
    ghost use Rattle.std.specs.Iterator.{YieldsFirstBy, item_count};
    ghost use Rattle.boxes.specs.Items.{item_of, items_of};

    type Item = Result<BoxPart<'a>, Malformed>;

    ghost next_gives = { YieldsFirstBy item_of items_of };

    ghost remaining = { item_count items_of };

    #[tactic(auto, using(crate::proofs::BoxLaws::items_of_step))]
    fn next(&mut self) -> Option<Self::Item> {
        match self.next_box() {
            Ok(None) => None,
            Ok(Some(part)) => Some(Ok(part)),
            Err(e) => {
                *self = BoxReader::new(&[]);
                Some(Err(e))
            }
        }
    }
}

// ---- the one box of a type

/// The body of the one box of a type, which stands before every box of a second type. Where it is missing, doubled or after one of those,
/// or the slice is not made of boxes, it is malformed.
#[tactic(auto, unfolding(crate::specs::Lone::lone_among), using(crate::proofs::BoxLaws::items_of_step, crate::proofs::LoneLaws::among_all))]
pub fn lone(s: &[u8], kind: u32, after: u32) -> Result<&[u8], Malformed>
    ensures value { Gives (λ body. body.now) result (lone_in kind after (boxes_of s.now)) }
    ensures part { IfOk result (IsPart s.entry.ref_ptr s.now (body_start s.now (place_of kind s.now))) }
{
    let mut cursor = Cursor { at: 0 };
    let mut found = None;
    while let Some(part) = cursor.next_box(s)? {
        if part.kind == kind {
            if found.is_some() {
                return Err(Malformed);
            }
            // Its place, since an invariant knows a slice's bytes, and not where they stand.
            found = Some(cursor.at - part.body.len()..cursor.at);
        } else if part.kind == after && found.is_none() {
            return Err(Malformed);
        }
    }
    let body = found.ok_or(Malformed)?;
    Ok(&s[body])
}
