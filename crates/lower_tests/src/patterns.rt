//! Which texts a pattern can be built of.
ghost use Rattle.std.specs.Prelude.{◌≡◌};

use event_directory::{Pattern, PatternFault};
use std::alloc::Global;
use std::process::Abort;

fn wants_pattern<R: Abort>(rt: &R, alloc: Global, text: &str, fault: Option<PatternFault>) {
    let found = Pattern::build(alloc, text).err();
    assert_eq!(rt; found, fault, "{text}");
}

fn long_text<R: Abort>(rt: &R, alloc: Global, count: u32) -> String {
    let mut text = String::new(alloc);
    for _ in 0..count {
        text.push('a').expect(rt, "memory");
    }
    text
}

#[test]
fn builds_what_it_can(rt: HostRuntime) {
    let alloc = rt.alloc();
    let long = long_text(&rt, alloc, 256);
    let longer = long_text(&rt, alloc, 257);
    wants_pattern(&rt, alloc, "", Some(PatternFault::Length));
    wants_pattern(&rt, alloc, "a\n", Some(PatternFault::Length));
    wants_pattern(&rt, alloc, "\u{7f}", Some(PatternFault::Length));
    wants_pattern(&rt, alloc, "é", Some(PatternFault::Length));
    wants_pattern(&rt, alloc, &longer, Some(PatternFault::Length));
    wants_pattern(&rt, alloc, "(", Some(PatternFault::Refused));
    wants_pattern(&rt, alloc, "a b~", None);
    wants_pattern(&rt, alloc, &long, None);
}

// A letter costs at most 261: as much as with `a{256}`, of which five are of the search around it.
// A choice costs two, an assertion five, a set of seven ranges three, and all of it twice where
// there is an assertion: `a{120}\b` costs 260. The tables of a pattern take at most 16,384 bytes:
// `.` takes some 200 of them.
#[test]
fn a_pattern_past_the_limits_is_refused(rt: HostRuntime) {
    let alloc = rt.alloc();
    wants_pattern(&rt, alloc, "a{256}", None);
    wants_pattern(&rt, alloc, "a{257}", Some(PatternFault::Refused));
    wants_pattern(&rt, alloc, "((a?){30}){30}b", Some(PatternFault::Refused));
    wants_pattern(&rt, alloc, "(?:a?){80}", None);
    wants_pattern(&rt, alloc, "(?:a?){90}", Some(PatternFault::Refused));
    wants_pattern(&rt, alloc, "(?:[acegikm]?){48}", None);
    wants_pattern(
        &rt,
        alloc,
        "(?:[acegikm]?){54}",
        Some(PatternFault::Refused),
    );
    wants_pattern(&rt, alloc, "a{120}\\b", None);
    wants_pattern(&rt, alloc, "a{121}\\b", Some(PatternFault::Refused));
    wants_pattern(&rt, alloc, "(?:\\b|a){12}", None);
    wants_pattern(&rt, alloc, "(?:\\b|a){20}", Some(PatternFault::Refused));
    wants_pattern(&rt, alloc, ".{64}", None);
    wants_pattern(&rt, alloc, ".{128}", Some(PatternFault::Refused));
    wants_pattern(&rt, alloc, "\\w", None);
}
