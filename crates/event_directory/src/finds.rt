//! What a directory asks of a pattern.
ghost use Rattle.std.specs.Prelude.{◌≡◌, ℕ, List, Bool, IfOk};

use s6_events::{Letter, NoMemory};

/// A pattern, as far as a directory looks at it: it has a text, and it finds a match in some
/// letters or finds none. `Pattern` is the one that directories are made for; a test may hand in
/// one that needs no regular expression.
pub trait Finds: Drop {
    /// The text that the pattern was made from.
    ghost source: { Self → List ℕ };

    /// Whether a pattern of this text finds a match in these letters.
    ghost test: { List ℕ → List ℕ → Bool };

    /// Whether there is a match in these letters. NoMemory where the search is refused memory.
    fn finds(&mut self, letters: &[Letter]) -> Result<bool, NoMemory>
        ensures found { IfOk result (λ found. found ≡ test (source self.old) letters.now) }
        ensures same { source self.new ≡ source self.old };
}
