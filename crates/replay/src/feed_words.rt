// The call `feed`, which needs no buffer: of two strings of bytes, what to feed.
use crate::answers;
use crate::answers::Answer;
use crate::fault::Fault;
use crate::segment_words::{MOST_BYTES, bytes_of};
use script::words::{Unmade, Words};
use std::io::Write;

// By the words after `feed`. A place beyond 32 bits overruns any line's bytes as the last of them does.
pub fn call(mut words: Words<'_>, out: &mut impl Write) -> Result<(), Fault> {
    let whole = match words.word()? {
        b"init" => true,
        b"segment" => false,
        _ => return Err(Fault::from(Unmade::Unknown)),
    };
    let start = words.natural()? as usize;
    let end = words.natural()? as usize;
    let mut initialization = [0; MOST_BYTES];
    let mut segment = [0; MOST_BYTES];
    let initialization = bytes_of(words.word()?, &mut initialization)?;
    let segment = bytes_of(words.last()?, &mut segment)?;
    let fed = feed::feed(initialization, segment, whole, start, end);
    answers::tell(out, Ok(Answer::Fed(fed)), true)?;
    Ok(())
}
