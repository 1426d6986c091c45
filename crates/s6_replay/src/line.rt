//! Reads one line, up to its newline or to a limit. `reading.rt` says which fault it is where a
//! line ends otherwise than by its newline.
ghost use Rattle.std.specs.Prelude.{◌≡◌, ◌<◌, ◌≤◌, List, ℕ, length, Option, None, Ok, IfOk, OnErr};
ghost use Rattle.std.specs.Io.KnownBytes.{Consumes, Keeps};
ghost use Rattle.s6_replay.specs.Lines.{EndsAs, GoesOnOrEnds, IsPart};

use memchr::memchr;
use std::alloc::Allocator;
use std::io::{BufRead, Read};

// How a line ended.
#[derive(Clone, Copy, Debug, PartialEq, Eq)]
pub enum Ended {
    // By its newline.
    Newline,
    // By the end of the input.
    End,
    // It didn't end: it has more bytes than a line may have.
    TooLong,
}

// Why no line was read.
#[derive(Clone, Copy, Debug, PartialEq, Eq)]
pub enum LineReadFault {
    // The reader answered an error.
    Read,
    // Memory was refused.
    NoMemory,
}

// Reads the next line into `line`, without its newline. With its newline it may have LIMIT bytes.
// At a fault `line` holds what was read.
pub fn read_line<A: Allocator + Copy, R: BufRead, const LIMIT: usize>(
    reader: &mut R,
    line: &mut Vec<u8, A>,
) -> Result<Ended, LineReadFault>
    ensures ok { IfOk result (λ ended.
        EndsAs LIMIT ended (R.remaining reader.old) (R.remaining reader.new) line.new.items) }
    ensures err { OnErr result (Consumes (R.remaining reader.old)
        (R.remaining reader.new) line.new.items) }
    ensures part { OnErr result (IsPart LIMIT line.new.items) }
{
    line.clear();
    while line.len() < LIMIT {
        // One byte by `read`, which tells the end of the input; then as many as lie in the reader's
        // buffer.
        if let Some(ended) = read_byte::<A, R, LIMIT>(reader, line)? {
            return Ok(ended);
        }
        if let Some(ended) = read_buffered::<A, R, LIMIT>(reader, line)? {
            return Ok(ended);
        }
    }
    // LIMIT bytes came and no newline: the line is too long, unless the input ends here.
    let mut byte = [0; 1];
    match reader.read(&mut byte) {
        Err(_) => Err(LineReadFault::Read),
        Ok(0) => Ok(Ended::End),
        Ok(_) => Ok(Ended::TooLong),
    }
}

// Reads one byte more of a line, and tells how the line ended if it did. It calls `read`, which
// answers 0 at the end of any input. That an empty buffer means the end is promised only for a
// reader whose bytes are known.
fn read_byte<A: Allocator + Copy, R: BufRead, const LIMIT: usize>(
    reader: &mut R,
    line: &mut Vec<u8, A>,
) -> Result<Option<Ended>, LineReadFault>
    requires part { IsPart LIMIT line.old.items }
    requires room { length line.old.items < LIMIT }
    ensures ok { IfOk result (λ ended. (start : Option (List ℕ))
        → Consumes start (R.remaining reader.old) line.old.items
        → GoesOnOrEnds LIMIT ended start (R.remaining reader.new) line.new.items) }
    ensures more { result ≡ Ok None → length line.old.items < length line.new.items }
    ensures err { OnErr result ((line.new.items ≡ line.old.items)
        × Keeps (R.remaining reader.old) (R.remaining reader.new)) }
{
    if line.reserve(1).is_err() {
        return Err(LineReadFault::NoMemory);
    }
    let mut byte = [0; 1];
    match reader.read(&mut byte) {
        Err(_) => return Err(LineReadFault::Read),
        Ok(0) => return Ok(Some(Ended::End)),
        Ok(_) => {}
    }
    if byte[0] == b'\n' {
        return Ok(Some(Ended::Newline));
    }
    line.push_reserved(byte[0]);
    Ok(None)
}

// Reads what the reader's buffer has of a line, and tells how the line ended if its newline came.
fn read_buffered<A: Allocator + Copy, R: BufRead, const LIMIT: usize>(
    reader: &mut R,
    line: &mut Vec<u8, A>,
) -> Result<Option<Ended>, LineReadFault>
    requires part { IsPart LIMIT line.old.items }
    ensures ok { IfOk result (λ ended. (start : Option (List ℕ))
        → Consumes start (R.remaining reader.old) line.old.items
        → GoesOnOrEnds LIMIT ended start (R.remaining reader.new) line.new.items) }
    ensures more { result ≡ Ok None → length line.old.items ≤ length line.new.items }
    ensures err { OnErr result ((line.new.items ≡ line.old.items)
        × Keeps (R.remaining reader.old) (R.remaining reader.new)) }
{
    let Ok(buffered) = reader.fill_buf() else {
        return Err(LineReadFault::Read);
    };
    // The line may have LIMIT bytes: no more are looked at.
    let room = LIMIT - line.len();
    let within = &buffered[..buffered.len().min(room)];
    let newline = memchr(b'\n', within);
    let end = newline.unwrap_or(within.len());
    if line.extend_from_slice(&within[..end]).is_err() {
        return Err(LineReadFault::NoMemory);
    }
    if newline.is_none() {
        // No newline came: all that was looked at is taken from the reader, and the line goes on.
        reader.consume(end);
        return Ok(None);
    }
    // The newline is taken from the reader too, and is not part of the line.
    reader.consume(end + 1);
    Ok(Some(Ended::Newline))
}
