//! Counts the lines of a script that is checked, so that whoever has one that was cut off learns
//! how much of it is whole.
ghost use Rattle.std.specs.Prelude.{◌≡◌};
ghost use Rattle.replay_tool.specs.Whole.{lines_of_whole_steps};

use std::io::{self, Read};

/// A reader that counts the newlines in what it reads.
#[derive(Drop)]
pub struct LineCounter<R> {
    input: R,
    newlines: u64,
}

impl<R> LineCounter<R> {
    /// A reader of this input, of which nothing was read yet.
    pub fn new(input: R) -> LineCounter<R> {
        LineCounter { input, newlines: 0 }
    }

    /// How many lines that were read are those of whole steps.
    pub fn whole_lines(&self) -> u64 {
        lines_of_whole_steps(self.newlines)
    }
}

impl<R: Read> Read for LineCounter<R> {
    fn read(&mut self, bytes: &mut [u8]) -> io::Result<usize> {
        let count = self.input.read(bytes)?;
        let read = bytes.iter().take(count);
        let newlines = read.filter(|byte| **byte == b'\n').count();
        self.newlines = self.newlines.saturating_add(newlines as u64);
        Ok(count)
    }
}

// Of so many lines, how many are those of whole steps: the head line, and for each step its input
// and its reply.
fn lines_of_whole_steps(lines: u64) -> u64
    ensures { result ≡ lines_of_whole_steps lines }
{
    if lines % 2 == 1 {
        lines
    } else {
        lines.saturating_sub(1)
    }
}
