//! How much is told of a child's first line.
ghost use Rattle.std.specs.Prelude.{◌≡◌, ◌+◌, ◌≤◌, ◌<◌, true, false};

/// The most bytes of a child that are told before its first newline. Of what comes after them only
/// the newline is told.
pub(crate) const FIRST_LINE_LIMIT: usize = 1_024;

/// How many more bytes may be told before a newline.
#[derive(Drop)]
pub(crate) struct LineLimit {
    left: usize,
}

impl LineLimit {
    /// Nothing was told.
    pub fn new() -> LineLimit
        ensures { result.left ≡ 1024 }
    {
        LineLimit {
            left: FIRST_LINE_LIMIT,
        }
    }

    /// Whether a part of `count` bytes may be told. Once a part doesn't fit, no later part that has
    /// a byte may be told.
    pub fn admit(&mut self, count: usize) -> bool
        ensures told { result ≡ true → self.new.left + count ≡ self.old.left }
        ensures silent { result ≡ false → (self.old.left < count) × (self.new.left ≡ 0) }
    {
        if count > self.left {
            // A part is left out, so nothing after it may be told.
            self.left = 0;
            return false;
        }
        self.left -= count;
        true
    }
}
