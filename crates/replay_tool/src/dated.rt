//! A story, a script told in words, with times of day in place of the seconds with which its lines
//! begin.
use day_times::day_millisecond;
use std::io::{Result, Write};

/// A writer for a story. It writes each line with a time of day in place of the seconds with which
/// the line begins: those seconds are gathered in `moment`, and the time of day at which they were
/// 0 is `start`.
#[derive(Debug, Drop)]
pub struct Dated<W> {
    writer: W,
    /// The time of day at which the seconds were 0, in milliseconds since the beginning of 1970.
    start: u64,
    /// What was read so far of the moment of a line, in milliseconds; None behind the moment.
    moment: Option<u64>,
}

impl<W> Dated<W> {
    /// A writer that writes lines with times of day to this writer.
    pub fn new(writer: W, start: u64) -> Dated<W> {
        Dated {
            writer,
            start,
            // The first line begins with its moment.
            moment: Some(0),
        }
    }
}

// The milliseconds of a moment, after one more of its bytes. A moment has three decimals, so its
// point is passed over.
fn read_further(moment: u64, byte: u8) -> u64 {
    match byte {
        b'0'..=b'9' => moment
            .saturating_mul(10)
            .saturating_add(u64::from(byte - b'0')),
        _ => moment,
    }
}

// Writes the time of day, and a space; a dash where it is past the year 9999.
fn write_day<W: Write>(writer: &mut W, millis: u64) -> Result<()> {
    match day_millisecond(millis) {
        Some(day) => writer.write_all(day.as_str().as_bytes())?,
        None => writer.write_all(b"-")?,
    }
    writer.write_all(b" ")
}

impl<W: Write> Write for Dated<W> {
    // Writes a part of the story, which may begin and end within a line. It takes all of the bytes.
    fn write(&mut self, bytes: &[u8]) -> Result<usize> {
        for byte in bytes {
            match self.moment {
                // The moment of the line ends at the first space.
                Some(moment) if *byte == b' ' => {
                    write_day(&mut self.writer, self.start.saturating_add(moment))?;
                    self.moment = None;
                }
                Some(moment) => self.moment = Some(read_further(moment, *byte)),
                // Behind its moment a line goes on as it is.
                None => self.writer.write_all(&[*byte])?,
            }
            // The next line begins with its moment.
            if *byte == b'\n' {
                self.moment = Some(0);
            }
        }
        Ok(bytes.len())
    }

    // Has the writer behind it write out what it still holds.
    fn flush(&mut self) -> Result<()> {
        self.writer.flush()
    }
}
