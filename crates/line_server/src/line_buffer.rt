//! The bytes of a connection, cut into lines.
ghost use Rattle.std.specs.Prelude.{◌≡◌, ◌++◌, ◌<◌, ◌≤◌, [], Ok, Some, OnOk, OnErr, length, slice_get, take, drop};
ghost use Rattle.line_server.specs.Line.{HasNoNewline, IsLine, IsPart, IsTooLong};
ghost use Rattle.line_server.specs.declared.line_buffer.LineStatus.TheVariants.{Whole, Part, TooLong};

use memchr::memchr;
use std::alloc::{AllocError, Allocator};
use std::marker::Model;

/// The most bytes of a line, with its newline.
pub const LINE_LIMIT: usize = 8_192;

/// What the bytes begin with.
#[derive(Clone, Copy, Debug, PartialEq, Eq)]
pub enum LineStatus {
    /// A whole line.
    Whole,
    /// A part of a line, whose newline has not come.
    Part,
    /// A line of more than 8,192 bytes, with its newline.
    TooLong,
}

/// The bytes that have come, without the lines that were taken out.
#[derive(Drop)]
pub struct LineBuffer<A: Allocator> {
    bytes: Vec<u8, A>,
}

impl<A: Allocator> Model for LineBuffer<A> {
    ghost use Rattle.std.specs.Prelude.{ℕ, List};

    ghost Value = { List ℕ };

    ghost view = { λ b. b.bytes.items };
}

impl<A: Allocator + Copy> LineBuffer<A> {
    /// No byte has come.
    pub fn new(alloc: A) -> LineBuffer<A>
        ensures { result ≡ [] }
    {
        LineBuffer {
            bytes: Vec::new(alloc),
        }
    }

    /// Adds bytes that have come. Where memory is refused, the buffer is as it was.
    pub fn add(&mut self, more: &[u8]) -> Result<(), AllocError>
        ensures ok { OnOk result (self.new ≡ self.old ++ more.now) }
        ensures err { OnErr result (self.new ≡ self.old) }
    {
        self.bytes.extend_from_slice(more)
    }

    /// Takes the first line out, if it has come whole and has at most 8,192 bytes with its newline,
    /// and puts it into `line` without the newline; what was in `line` is gone. At any other
    /// answer, and where memory is refused, the buffer is as it was.
    pub fn next_line(&mut self, line: &mut Vec<u8, A>) -> Result<LineStatus, AllocError>
        ensures whole { result ≡ Ok Whole → IsLine self.old line.new.items self.new }
        ensures part { result ≡ Ok Part → IsPart self.old × (self.new ≡ self.old) }
        ensures too_long { result ≡ Ok TooLong → IsTooLong self.old × (self.new ≡ self.old) }
        ensures err { OnErr result (self.new ≡ self.old) }
    {
        let bytes = self.bytes.as_slice();
        let end = first_newline(bytes);
        // With its newline the line would be longer than the limit.
        if end >= LINE_LIMIT {
            return Ok(LineStatus::TooLong);
        }
        if end >= bytes.len() {
            return Ok(LineStatus::Part);
        }
        line.clear();
        line.extend_from_slice(&bytes[..end])?;
        drop_front(&mut self.bytes, end + 1);
        Ok(LineStatus::Whole)
    }
}

// The index of the first newline, or the number of bytes where there is none.
fn first_newline(bytes: &[u8]) -> usize
    ensures bound { result ≤ length bytes.now }
    ensures plain { HasNoNewline (take result bytes.now) }
    ensures newline { result < length bytes.now → slice_get bytes.now result ≡ Some 10 }
{
    memchr(b'\n', bytes).unwrap_or(bytes.len())
}

// Drops the first `count` bytes: moves them behind the others, and cuts them off. The others keep
// their order.
fn drop_front<A: Allocator>(bytes: &mut Vec<u8, A>, count: usize)
    requires { count ≤ length bytes.old.items }
    ensures { bytes.new.items ≡ drop count bytes.old.items }
{
    bytes.rotate_left(count);
    bytes.truncate(bytes.len() - count);
}
