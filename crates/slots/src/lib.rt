#![tactic(auto)]
// The two buffers of a session and the state that it saved: each a head with its stored frames, and what pokes may leave beside them.
ghost use Rattle.std.specs.Prelude.{◌≡◌, ◌↔◌, IsSome};
ghost use Rattle.std.specs.Borrow.{sem};
ghost use Rattle.std.specs.List.{list_all};
ghost use Rattle.std.specs.Option.{option_copied, option_copied_mut};
ghost use Rattle.slots.specs.Slots.{set_of, sets_of, slot_of, together_of, head_holds, holds_all, handed_of, fresh_session, first_of, second_of, used_of, saved_of, restored_of};
ghost use Rattle.slots.specs.Lending.{LendsSlot, LendsUsed};

use buffer_state::{Head, Tags, Times, Track};

// Which of a track's last decode time, last duration and highest end are set.
#[derive(Clone, Copy, Debug, PartialEq, Eq)]
pub struct Set {
    pub decode: bool,
    pub duration: bool,
    pub end: bool,
}

impl Set {
    // A Track knows only all three or none.
    pub fn of(track: Track) -> Self
        ensures { result ≡ set_of track }
    {
        Set {
            decode: track.known,
            duration: track.known,
            end: track.known,
        }
    }

    pub fn together(self) -> bool
        ensures { result ≡ together_of self }
    {
        self.decode == self.duration && self.duration == self.end
    }
}

fn sets_of(head: Head) -> [Set; 4]
    ensures { result ≡ sets_of head }
{
    let [a, b, c, d] = head.tracks;
    [Set::of(a), Set::of(b), Set::of(c), Set::of(d)]
}

// A frame's group beyond 32 bits, and the frame's place, counted from 0.
#[derive(Clone, Copy, Debug, PartialEq, Eq)]
pub struct Beyond {
    pub place: usize,
    pub group: i64,
}

// A buffer, and beside it what pokes may leave and neither a Head nor a row can hold: for each track which of its three values are set, the
// double kept beside a window end that is unbounded, and one frame's group.
#[derive(Clone, Copy)]
pub struct Slot {
    pub head: Head,
    pub times: Times,
    pub tags: Tags,
    pub sets: [Set; 4],
    pub spare: f64,
    pub beyond: Option<Beyond>,
}

impl Slot {
    // A buffer as calls leave it.
    pub fn of(head: Head, times: Times, tags: Tags) -> Self
        ensures { result ≡ slot_of head times tags }
    {
        Slot {
            head,
            times,
            tags,
            sets: sets_of(head),
            spare: 0.0,
            beyond: None,
        }
    }

    fn sets_hold(&self) -> bool
        ensures { result ≡ list_all together_of self.now.sets }
    {
        self.sets.iter().all(|set| set.together())
    }

    // Whether a head can hold what the slot holds beside it.
    fn head_holds(&self) -> bool
        ensures { result ≡ head_holds self.now }
    {
        self.sets_hold() && seconds::same_double(self.spare, 0.0)
    }

    // Whether the head and the rows say all that the slot holds.
    fn holds(&self) -> bool
        ensures { result ≡ holds_all self.now }
    {
        self.beyond.is_none() && self.head_holds()
    }

    // The head handed to a call. What they cannot hold is not well-formed, and no more is a head of nine tracks.
    pub fn handed(&self) -> Head
        ensures { result ≡ handed_of self.now }
    {
        if self.holds() {
            self.head
        } else {
            Head {
                ntracks: 9,
                ..self.head
            }
        }
    }

    // The head that a call gave.
    pub fn put_head(&mut self, head: Head)
        ensures { self.new ≡ slot_of head self.old.times self.old.tags }
    {
        self.head = head;
        self.sets = sets_of(head);
        self.spare = 0.0;
        self.beyond = None;
    }
}

// The buffers of the two slots, the state that was saved last, none where there is none, and which slot is in use: at first the first.
#[derive(Clone, Copy)]
pub struct Session {
    pub first: Option<Slot>,
    pub second: Option<Slot>,
    pub saved: Option<Slot>,
    pub second_used: bool,
}

impl Session {
    pub fn new() -> Self
        ensures { result ≡ fresh_session }
    {
        Session {
            first: None,
            second: None,
            saved: None,
            second_used: false,
        }
    }

    // The second slot is in use from here, or the first. What they hold stays.
    pub fn use_slot(&mut self, second: bool)
        ensures used { self.new.second_used ≡ second }
        ensures first { first_of self.new ≡ first_of self.old }
        ensures second { second_of self.new ≡ second_of self.old }
        ensures saved { self.new.saved ≡ self.old.saved }
    {
        self.second_used = second;
    }

    // The buffer of the slot in use.
    pub fn used(&self) -> Option<&Slot>
        ensures { option_copied result ≡ used_of self.now }
    {
        if self.second_used {
            self.second.as_ref()
        } else {
            self.first.as_ref()
        }
    }

    // The slot in use, lent for a buffer to come into it. What else the session holds stays.
    pub fn slot_mut(&mut self) -> &mut Option<Slot>
        ensures* writes_back { sem 𝓛 (LendsSlot self.entry result) }
        ensures value { result.now ≡ used_of self.old }
    {
        if self.second_used {
            &mut self.second
        } else {
            &mut self.first
        }
    }

    // Its buffer, lent for change.
    pub fn used_mut(&mut self) -> Option<&mut Slot>
        ensures* writes_back { sem 𝓛 (LendsUsed self.entry result) }
        ensures value { option_copied_mut result ≡ used_of self.old }
    {
        self.slot_mut().as_mut()
    }

    // The state of the slot in use is copied aside, frames and all, where there is one.
    pub fn save(&mut self) -> Option<()>
        ensures held { IsSome result ↔ IsSome (used_of self.old) }
        ensures session { self.new ≡ saved_of self.old }
    {
        if self.second_used {
            self.saved = Some(self.second?);
        } else {
            self.saved = Some(self.first?);
        }
        Some(())
    }

    // The state saved last goes into the slot in use, where there is one.
    pub fn restore(&mut self) -> Option<()>
        ensures held { IsSome result ↔ IsSome self.old.saved }
        ensures session { self.new ≡ restored_of self.old }
    {
        if self.second_used {
            self.second = Some(self.saved?);
        } else {
            self.first = Some(self.saved?);
        }
        Some(())
    }
}
