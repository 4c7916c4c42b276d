// The fields of a full box, read from left to right.

ghost use Rattle.std.specs.Prelude.{◌≡◌, ◌≤◌, ℕ, List, length};
ghost use Rattle.fragments.specs.Fields.{number_at, large_at, optional_at, after, TakesField, Skips};

use boxes::Malformed;
use std::marker::Model;

// The fields that are still to be read. A contract sees their bytes. An error leaves them.
#[derive(Drop)]
pub(crate) struct Fields<'a> {
    bytes: &'a [u8],
}

impl<'a> Model for Fields<'a> {
    ghost Value = { List ℕ };

    ghost view = { λ f. f.bytes.now };
}

impl<'a> Fields<'a> {
    pub(crate) fn new(bytes: &'a [u8]) -> Self
        ensures { result ≡ bytes.entry.now }
    {
        Fields { bytes }
    }

    // The number in a field of 4 bytes.
    #[tactic(auto, using(boxes::proofs::BoxLaws::be4_read))]
    pub(crate) fn u32(&mut self) -> Result<u32, Malformed>
        ensures { TakesField result (number_at self.old) self.old self.new }
    {
        let (front, rest) = self.bytes.split_first_chunk::<4>().ok_or(Malformed)?;
        self.bytes = rest;
        Ok(u32::from_be_bytes(*front))
    }

    // The number in a field of 8 bytes.
    #[tactic(auto, using(boxes::proofs::BoxLaws::be8_read))]
    pub(crate) fn u64(&mut self) -> Result<u64, Malformed>
        ensures { TakesField result (large_at self.old) self.old self.new }
    {
        let (front, rest) = self.bytes.split_first_chunk::<8>().ok_or(Malformed)?;
        self.bytes = rest;
        Ok(u64::from_be_bytes(*front))
    }

    // The number in a field of 4 bytes where it is there, else its default.
    pub(crate) fn optional(&mut self, there: bool, default: u32) -> Result<u32, Malformed>
        ensures { TakesField result (optional_at there default self.old) self.old self.new }
    {
        if there {
            return self.u32();
        }
        Ok(default)
    }

    // Passes over so many bytes.
    pub(crate) fn skip(&mut self, n: usize) -> Result<(), Malformed>
        ensures { Skips result (after n self.old) self.old self.new }
    {
        self.bytes = self.bytes.get(n..).ok_or(Malformed)?;
        Ok(())
    }
}
