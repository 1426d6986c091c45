//! An age in two units.
ghost use Rattle.std.specs.Prelude.{◌≡◌, ◌<◌, ◌++◌, OnOk};
ghost use Rattle.tool_lines.specs.Ages.{age_text, in_units, two_digits};

use s6_script::push_number;
use std::alloc::AllocError;

// The seconds of a minute.
const MINUTE: u64 = 60;

// The seconds of an hour.
const HOUR: u64 = 3600;

// The seconds of a day.
const DAY: u64 = 86_400;

// Adds a number below 100 by two digits.
fn push_two_digits(text: &mut Vec<u8>, number: u64) -> Result<(), AllocError>
    requires { number < 100 }
    ensures { OnOk result (text.new.items ≡ text.old.items ++ two_digits number) }
{
    text.extend_from_slice(&[b'0' + (number / 10) as u8, b'0' + (number % 10) as u8])
}

// Adds a number of a unit, and the rest in the next smaller unit, with two digits.
fn push_units(
    text: &mut Vec<u8>,
    great: u64,
    great_unit: u8,
    small: u64,
    small_unit: u8,
) -> Result<(), AllocError>
    requires { small < 100 }
    ensures { OnOk result
        (text.new.items ≡ text.old.items ++ in_units great great_unit small small_unit) }
{
    push_number(text, great)?;
    text.push(great_unit)?;
    push_two_digits(text, small)?;
    text.push(small_unit)?;
    Ok(())
}

/// Adds an age in its two largest units, as 12s, 3m12s, 5h03m or 2d07h.
pub fn push_age(text: &mut Vec<u8>, seconds: u64) -> Result<(), AllocError>
    ensures { OnOk result (text.new.items ≡ text.old.items ++ age_text seconds) }
{
    if seconds < MINUTE {
        push_number(text, seconds)?;
        text.extend_from_slice(b"s")
    } else if seconds < HOUR {
        push_units(text, seconds / MINUTE, b'm', seconds % MINUTE, b's')
    } else if seconds < DAY {
        push_units(text, seconds / HOUR, b'h', seconds / MINUTE % 60, b'm')
    } else {
        push_units(text, seconds / DAY, b'd', seconds / HOUR % 24, b'h')
    }
}
