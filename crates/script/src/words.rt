// The words of a line, read from left to right, and what a line says that makes no call.
ghost use Rattle.std.specs.Prelude.{◌≤◌, IfOk, IfSome};

use text::read::{NoNumber, as_double, as_small, as_whole};
use thiserror::Error;

// Why a line makes no call: it cannot be read; it asks for what cannot be held; it needs a buffer and there is none. So it is answered.
#[derive(Clone, Copy, Debug, PartialEq, Eq, Error)]
pub enum Unmade {
    #[error("unknown")]
    Unknown,
    #[error("declined")]
    Declined,
    #[error("none")]
    NoBuffer,
}

// A poke's number that its field has no room for is read all the same.
impl From<NoNumber> for Unmade {
    fn from(why: NoNumber) -> Unmade {
        match why {
            NoNumber::Above | NoNumber::Below => Unmade::Declined,
            NoNumber::NotWhole => Unmade::Unknown,
        }
    }
}

// The words that are still to be read, parted by single spaces; none once the last is read.
#[derive(Clone, Copy, Debug)]
pub struct Words<'a> {
    rest: Option<&'a [u8]>,
}

impl<'a> Words<'a> {
    pub fn of(line: &'a [u8]) -> Self {
        Words { rest: Some(line) }
    }

    // All that is still to be read, with its spaces.
    pub fn rest(self) -> Option<&'a [u8]> {
        self.rest
    }

    fn next(&mut self) -> Option<&'a [u8]> {
        let mut parts = self.rest?.splitn(2, |b| *b == b' ');
        let word = parts.next();
        self.rest = parts.next();
        word
    }

    pub fn word(&mut self) -> Result<&'a [u8], Unmade> {
        self.next().ok_or(Unmade::Unknown)
    }

    // No word is left.
    pub fn end(self) -> Result<(), Unmade> {
        match self.rest {
            Some(_) => Err(Unmade::Unknown),
            None => Ok(()),
        }
    }

    // The last word.
    pub fn last(mut self) -> Result<&'a [u8], Unmade> {
        let word = self.word()?;
        self.end()?;
        Ok(word)
    }

    pub fn whole(&mut self) -> Result<i64, Unmade> {
        as_whole(self.word()?).or(Err(Unmade::Unknown))
    }

    pub fn small(&mut self) -> Result<u32, Unmade> {
        as_small(self.word()?).or(Err(Unmade::Unknown))
    }

    pub fn natural(&mut self) -> Result<u32, Unmade> {
        natural(self.word()?)
    }

    pub fn flag(&mut self) -> Result<bool, Unmade> {
        match self.small()? {
            0 => Ok(false),
            1 => Ok(true),
            _ => Err(Unmade::Unknown),
        }
    }

    pub fn double(&mut self) -> Result<f64, Unmade> {
        as_double(self.word()?).ok_or(Unmade::Unknown)
    }

    // How much is lent, at most `most`, where the next word is `name=K`; the name is given with the sign after it.
    pub fn lent(&mut self, name: &[u8], most: usize) -> Result<Option<usize>, Unmade>
        ensures { IfOk result (λ lent. IfSome lent (λ n. n ≤ most)) }
    {
        let mut after = *self;
        let Some(number) = after.next().and_then(|word| word.strip_prefix(name)) else {
            return Ok(None);
        };
        *self = after;
        match as_small(number) {
            Ok(n) if n as usize <= most => Ok(Some(n as usize)),
            _ => Err(Unmade::Unknown),
        }
    }
}

// Any number from 0 up. One beyond 32 bits is as good as the last of them: no buffer has such a track, and no script so many frames.
pub fn natural(word: &[u8]) -> Result<u32, Unmade> {
    match as_small(word) {
        Ok(n) => Ok(n),
        Err(NoNumber::Above) => Ok(u32::MAX),
        Err(_) => Err(Unmade::Unknown),
    }
}
