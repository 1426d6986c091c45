//! Numbers, as files and command words spell them.
ghost use Rattle.std.specs.Prelude.{◌≡◌, ◌≤◌, ◌<◌, ◌^◌, ℕ, IsTrue, IfSome, nat_le, Some, None, if◌then◌else◌};
ghost use Rattle.std.specs.Fmt.{decimal};
ghost use Rattle.std.specs.List.{list_all};
ghost use Rattle.servicedir.specs.Number.{is_digit, are_digits, value_of_digits, number_up_to, line_of, number_of};

/// The greatest number of a number file.
const GREATEST_NUMBER: u32 = 4_294_967_295;

/// The number that the text of a number file says: one or more ASCII digits, perhaps with leading
/// zeros, and at most one newline behind them. The number is at most 4294967295. A number that was
/// printed in decimal is read as that number. None for any other text. Page `servicedir`; that a
/// second newline, or a byte that is no digit, makes the text invalid is chosen here.
#[tactic(auto, using(crate::proofs::Decimals::read_back))]
pub fn parse_number(text: &[u8]) -> Option<u32>
    ensures value { result ≡ number_of text.now }
    ensures printed { (number : ℕ) → number < 2 ^ 32 → line_of text.now ≡ decimal number
        → result ≡ Some number }
{
    parse_digits(without_newline(text), GREATEST_NUMBER)
}

/// The number that a text of digits says, perhaps with leading zeros; None where the text is empty,
/// has any other byte, or says more than `most`. Takes no memory.
#[tactic(auto, unfolding(crate::specs::Number::number_up_to))]
pub fn parse_digits(text: &[u8], most: u32) -> Option<u32>
    ensures value { result ≡ number_up_to most text.now }
    ensures bound { IfSome result (λ number. number ≤ most) }
{
    if !are_digits(text) {
        return None;
    }
    value_up_to(text, most)
}

// Whether the text is one digit or more, and nothing else.
fn are_digits(text: &[u8]) -> bool
    ensures { result ≡ are_digits text.now }
{
    !text.is_empty() && all_are_digits(text)
}

// The text without the one newline that may end it.
pub(crate) fn without_newline(text: &[u8]) -> &[u8]
    ensures { result.now ≡ line_of text.now }
{
    match text {
        [line @ .., b'\n'] => line,
        _ => text,
    }
}

// Whether each byte is an ASCII digit; so it is of an empty text.
fn all_are_digits(text: &[u8]) -> bool
    ensures { result ≡ list_all is_digit text.now }
{
    text.iter().all(|byte| (b'0'..=b'9').contains(byte))
}

// The number that digits say; None where it is over `most`. It stops there, since more digits never
// make the number less.
fn value_up_to(digits: &[u8], most: u32) -> Option<u32>
    requires { IsTrue (are_digits digits.now) }
    ensures { result ≡ (if nat_le (value_of_digits digits.now) most
        then Some (value_of_digits digits.now) else None) }
{
    let mut value = 0u64;
    for digit in digits {
        value = 10 * value + u64::from(digit - b'0');
        if value > u64::from(most) {
            return None;
        }
    }
    Some(value as u32)
}
