#![tactic(auto)]
// Numbers, doubles, bytes, fate lines and ranges as text: how they are written here, how they are read from a word in read.rt; and what a
// program writes to.
ghost use Rattle.std.specs.Prelude.{◌≡◌, ◌||◌, length, Some, Ok, IsTrue, IsFalse, is_err};
ghost use Rattle.text.specs.Written.{double_text, bytes_text, fates_text, ranges_text};

pub mod read;

use std::io::Write;
use std::num::f64_to_bits_with_nan;
use std::{fmt, io};

// ---- where a program writes

// Standard output, as a run sees it that goes on where it cannot be written: no write fails, and whether one did is kept for the run's end.
#[derive(Drop)]
pub struct Output<W: Write> {
    pub to: W,
    pub failed: bool,
}

impl<W: Write> Output<W> {
    pub fn new(to: W) -> Self
        ensures to { result.to ≡ to }
        ensures failed { IsFalse result.failed }
    {
        Output { to, failed: false }
    }

    fn note(&mut self, written: io::Result<()>)
        ensures to { self.new.to ≡ self.old.to }
        ensures failed { self.new.failed ≡ self.old.failed || is_err written }
    {
        self.failed = self.failed || written.is_err();
    }

    // At the end of the program of this name, told on standard error. Where that cannot be written either, nothing more can be said.
    pub fn tell_failed<E: Write>(&self, program: &str, error: &mut E)
        ensures silent { IsFalse self.now.failed → error.new ≡ error.old }
    {
        if self.failed {
            let _ = writeln!(error, "{program}: standard output could not be written");
        }
    }
}

impl<W: Write> Write for Output<W> {
    fn write(&mut self, bytes: &[u8]) -> io::Result<usize>
        ensures whole { result ≡ Ok (length bytes.now) }
        ensures kept { IsTrue self.old.failed → IsTrue self.new.failed }
    {
        let written = self.to.write_all(bytes);
        self.note(written);
        Ok(bytes.len())
    }

    fn flush(&mut self) -> io::Result<()>
        ensures kept { IsTrue self.old.failed → IsTrue self.new.failed }
    {
        let written = self.to.flush();
        self.note(written);
        Ok(())
    }
}

// ---- how things are written

// A double by its bits. Which bits a NaN has is the machine's choice, so one pattern stands for them all.
#[derive(Clone, Copy, Debug)]
pub struct Double(pub f64);

impl fmt::Display for Double {
    ghost output = { λ d. Some (double_text d.0) };

    fn fmt<W: fmt::Write>(&self, f: &mut fmt::Formatter<W>) -> fmt::Result {
        write!(f, "0x{:016x}", f64_to_bits_with_nan(self.0))
    }
}

// Two digits for each byte; no bytes are `-`.
#[derive(Clone, Copy, Debug)]
pub struct Bytes<'a>(pub &'a [u8]);

impl fmt::Display for Bytes<'_> {
    ghost output = { λ b. Some (bytes_text b.0.now) };

    fn fmt<W: fmt::Write>(&self, f: &mut fmt::Formatter<W>) -> fmt::Result {
        if self.0.is_empty() {
            return write!(f, "-");
        }
        for byte in self.0 {
            write!(f, "{byte:02x}")?;
        }
        Ok(())
    }
}

// Fate lines: the number of each frame and its cause.
#[derive(Clone, Copy, Debug)]
pub struct Fates<'a>(pub &'a [[u32; 2]]);

impl fmt::Display for Fates<'_> {
    ghost output = { λ f. Some (fates_text f.0.now) };

    fn fmt<W: fmt::Write>(&self, f: &mut fmt::Formatter<W>) -> fmt::Result {
        write!(f, "fates")?;
        for [number, cause] in self.0 {
            write!(f, " ({number},{cause})")?;
        }
        Ok(())
    }
}

// Ranges, each from its first time up to the one that ends it.
#[derive(Clone, Copy, Debug)]
pub struct Ranges<'a>(pub &'a [[i64; 2]]);

impl fmt::Display for Ranges<'_> {
    ghost output = { λ r. Some (ranges_text r.0.now) };

    fn fmt<W: fmt::Write>(&self, f: &mut fmt::Formatter<W>) -> fmt::Result {
        write!(f, "ranges")?;
        for [start, end] in self.0 {
            write!(f, " [{start},{end})")?;
        }
        Ok(())
    }
}
