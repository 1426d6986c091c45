//! Moments in seconds, as a story writes them.
ghost use Rattle.std.specs.Prelude.{◌≡◌, ◌<◌, ◌++◌, OnOk};
ghost use Rattle.run_stories.specs.Moments.{three_digits, seconds_text, moment_text, serial_front};

use s6_events::At;
use s6_script::push_number;
use std::alloc::{AllocError, Allocator};

/// The milliseconds of a second.
const SECOND: u64 = 1000;

// Adds a number below 1,000 to the text, by three digits.
fn push_three_digits<A: Allocator>(text: &mut Vec<u8, A>, number: u64) -> Result<(), AllocError>
    requires { number < 1000 }
    ensures { OnOk result (text.new.items ≡ text.old.items ++ three_digits number) }
{
    text.extend_from_slice(&[
        b'0' + (number / 100) as u8,
        b'0' + (number / 10 % 10) as u8,
        b'0' + (number % 10) as u8,
    ])
}

/// Adds to the text a number of milliseconds (`millis`) in seconds, with three decimals. An error
/// where memory is refused.
pub fn push_seconds<A: Allocator>(text: &mut Vec<u8, A>, millis: u64) -> Result<(), AllocError>
    ensures { OnOk result (text.new.items ≡ text.old.items ++ seconds_text millis) }
{
    push_number(text, millis / SECOND)?;
    text.push(b'.')?;
    push_three_digits(text, millis % SECOND)
}

/// Adds the moment with which a line begins, and a space. An error where memory is refused.
pub fn push_moment<A: Allocator>(text: &mut Vec<u8, A>, now: At) -> Result<(), AllocError>
    ensures { OnOk result (text.new.items ≡ text.old.items ++ moment_text now) }
{
    push_seconds(text, now.millis())?;
    text.push(b' ')?;
    Ok(())
}

/// Adds to the text the moment with which a line begins, a space, a word (such as `wait `), and a
/// serial. An error where memory is refused.
pub fn push_serial<A: Allocator>(
    text: &mut Vec<u8, A>,
    now: At,
    word: &[u8],
    serial: u64,
) -> Result<(), AllocError>
    ensures { OnOk result (text.new.items ≡ text.old.items ++ serial_front now word.now serial) }
{
    push_moment(text, now)?;
    text.extend_from_slice(word)?;
    push_number(text, serial)
}
