//! The words of a line.
ghost use Rattle.std.specs.Prelude.{◌≡◌, ◌==◌, option_map, slice_get};
ghost use Rattle.std.specs.List.{slice_split};
ghost use Rattle.std.specs.Str.{bytes_eq};
ghost use Rattle.tool_lines.specs.Words.{word_in};

/// Whether a word is this text.
pub fn is_word(word: &[u8], text: &[u8]) -> bool
    ensures { result ≡ bytes_eq word.now text.now }
{
    word == text
}

/// The word of a line at a place, counted from 0; None where the line has no such word. Between
/// each two words is one space.
pub fn word_at(line: &[u8], place: usize) -> Option<&[u8]>
    ensures { option_map (λ w. w.now) result
        ≡ slice_get (slice_split (λ b. b == 32) line.entry.now) place }
{
    line.split(|byte| *byte == b' ').nth(place)
}

/// The word of a line at a place, counted from 0; no byte where the line has no such word.
pub fn word_or_none(line: &[u8], place: usize) -> &[u8]
    ensures { result.now ≡ word_in line.entry.now place }
{
    match word_at(line, place) {
        Some(word) => word,
        None => &[],
    }
}
