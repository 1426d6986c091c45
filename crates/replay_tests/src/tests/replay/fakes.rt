//! Readers and writers that fail.
use std::io::{self, ErrorKind, Read, Write};

// Gives one byte a call, and fails at every call after these.
#[derive(Drop)]
pub struct FailingReader<'a> {
    pub bytes: &'a [u8],
    pub good: usize,
}

impl<'a> Read for FailingReader<'a> {
    fn read(&mut self, buf: &mut [u8]) -> io::Result<usize> {
        if self.good == 0 {
            return Err(ErrorKind::Other.into());
        }
        self.good -= 1;
        if self.bytes.is_empty() || buf.is_empty() {
            return Ok(0);
        }
        buf[0] = self.bytes[0];
        self.bytes = &self.bytes[1..];
        Ok(1)
    }
}

// Holds what it took, one byte a call, and then fails, or takes nothing.
#[derive(Drop)]
pub struct FailingWriter {
    pub taken: Vec<u8>,
    pub room: usize,
    pub fails: bool,
}

impl Write for FailingWriter {
    fn write(&mut self, buf: &[u8]) -> io::Result<usize> {
        if self.room == 0 || buf.is_empty() {
            if self.fails {
                return Err(ErrorKind::Other.into());
            }
            return Ok(0);
        }
        self.room -= 1;
        if self.taken.push(buf[0]).is_err() {
            return Err(ErrorKind::OutOfMemory.into());
        }
        Ok(1)
    }

    fn flush(&mut self) -> io::Result<()> {
        Ok(())
    }
}
