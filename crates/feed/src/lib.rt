// What to feed a decoder: of initialization bytes and a segment, both lent, the first whole or a part of the second, never a copy.
#![tactic(auto)]

ghost use Rattle.std.specs.Prelude.{◌≡◌, length};
ghost use Rattle.feed.specs.Feed.{is_within, feed_of, feed_at};
ghost use Rattle.feed.specs.Parts.{part_of};

// Whether a place, from start up to but not including end, is in so many bytes: it does not overrun them, nor end before its start.
fn inside(n: usize, start: usize, end: usize) -> bool
    ensures { result ≡ is_within n start end }
{
    end <= n && start <= end
}

// The initialization bytes whole, or the part of the segment at a place. A place that is not in the segment gives an empty part of it.
pub fn feed<'a>(
    initialization: &'a [u8],
    segment: &'a [u8],
    whole: bool,
    start: usize,
    end: usize,
) -> &'a [u8]
    ensures result_value { result.now ≡ feed_of whole initialization.now segment.now start end }
    ensures ref_ptr_value { result.ref_ptr ≡ feed_at whole initialization.entry.ref_ptr segment.entry.ref_ptr (length segment.now) start end }
{
    if whole {
        return initialization;
    }
    if inside(segment.len(), start, end) {
        return &segment[start..end];
    }
    &segment[..0]
}

// Where such bytes start in what they are a part of, and how many they are: for a program to which no slice can be handed back.
#[derive(Clone, Copy)]
pub struct Part {
    pub start: usize,
    pub length: usize,
}

pub fn part_of(initialization: usize, segment: usize, whole: bool, start: usize, end: usize) -> Part
    ensures { result ≡ part_of whole initialization segment start end }
{
    if whole {
        return Part {
            start: 0,
            length: initialization,
        };
    }
    if inside(segment, start, end) {
        return Part {
            start,
            length: end - start,
        };
    }
    Part {
        start: 0,
        length: 0,
    }
}
