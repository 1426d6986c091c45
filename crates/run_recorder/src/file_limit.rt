//! The limit that the system sets to a file's size.
ghost use Rattle.std.specs.Prelude.{◌≡◌, ◌-◌};

/// How many bytes more a file of this length may get under this limit.
pub(crate) fn room(limit: u64, length: u64) -> u64
    ensures { result ≡ limit - length }
{
    limit.saturating_sub(length)
}

/// The limit of a file's size in what `/proc/self/limits` tells: the first number of its line, in
/// bytes. None where that is no number, as `unlimited`, or where there is no such line.
pub(crate) fn limit_in(limits: &[u8]) -> Option<u64> {
    let line = limits
        .split(|byte| *byte == b'\n')
        .find(|line| line.starts_with(b"Max file size"))?;
    let mut words = line
        .split(|byte| *byte == b' ')
        .filter(|word| !word.is_empty())
        .skip(3);
    number_of(words.next()?)
}

// The number that a word says, in decimal digits; None where it says none.
fn number_of(word: &[u8]) -> Option<u64> {
    str::from_utf8(word).ok()?.parse::<u64>().ok()
}
