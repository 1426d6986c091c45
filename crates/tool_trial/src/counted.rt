//! A text that counts how often it was written to.
use std::alloc::Global;
use std::io::{self, Write};

/// What a tool wrote, and by how many writes.
#[derive(Drop)]
pub struct CountedText {
    bytes: Vec<u8>,
    writes: u64,
}

impl CountedText {
    /// Nothing was written.
    pub fn new(alloc: Global) -> CountedText {
        CountedText {
            bytes: Vec::new(alloc),
            writes: 0,
        }
    }

    /// What was written.
    pub fn as_slice(&self) -> &[u8] {
        self.bytes.as_slice()
    }

    /// Whether it was all written at once.
    pub fn is_one_write(&self) -> bool {
        self.writes <= 1
    }
}

impl Write for CountedText {
    fn write(&mut self, bytes: &[u8]) -> io::Result<usize> {
        self.writes = self.writes.saturating_add(1);
        self.bytes.write(bytes)
    }

    fn flush(&mut self) -> io::Result<()> {
        Ok(())
    }
}
