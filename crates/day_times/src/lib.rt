//! Times of day as people read them, in UTC.
#![tactic(auto)]

use arrayvec::ArrayString;
use jiff_core::Timestamp;
use jiff_fmt::temporal::DateTimePrinter;

/// How many nanoseconds a millisecond has.
const MILLISECOND: i128 = 1_000_000;

/// The text of a time of day.
pub type DayText = ArrayString<33>;

/// The time of day `millis` milliseconds after the beginning of 1970, to the second, as
/// `2026-11-27T11:18:48Z`; None past the year 9999.
pub fn day_second(millis: u64) -> Option<DayText> {
    day_text(millis, 0)
}

/// The same to the millisecond, as `2026-11-27T11:18:48.123Z`.
pub fn day_millisecond(millis: u64) -> Option<DayText> {
    day_text(millis, 3)
}

// The time of day `millis` milliseconds after the beginning of 1970, with `places` decimals of a
// second; None past the year 9999.
fn day_text(millis: u64, places: u8) -> Option<DayText> {
    // There is no instant, and so no text, past the year 9999. `MILLISECOND` is a millisecond in
    // nanoseconds.
    let instant = Timestamp::from_nanosecond(i128::from(millis) * MILLISECOND).ok()?;
    // It prints this many decimals of a second.
    let printer = DateTimePrinter::new().precision(Some(places));
    Some(printer.timestamp_text(instant))
}

// Whether there is a text of a time of day, and it is this one.
#[cfg(test)]
fn is_told(told: Option<DayText>, text: &str) -> bool {
    match told {
        Some(told) => told.as_str() == text,
        None => false,
    }
}

// Tests the texts of some times of day, to the second and to the millisecond, and that there is
// none past the year 9999.
#[test]
fn times_of_day_are_told(rt: HostRuntime) {
    assert!(rt; is_told(day_second(0), "1970-01-01T00:00:00Z"));
    assert!(rt; is_told(day_second(1_795_778_328_999), "2026-11-27T11:18:48Z"));
    assert!(rt;
        is_told(
            day_millisecond(1_795_778_328_023),
            "2026-11-27T11:18:48.023Z"
        )
    );
    assert!(rt; day_second(u64::MAX).is_none());
}
