//! Numbers, signal names and service names, text by text.
use s6_events::Name;
use servicedir::{
    Seen, ServiceFile, name_of, parse_digits, parse_number, parse_signal, signal_name, signal_named,
};
use std::process::Abort;

// The number that was read from the text is this one.
fn is_number(rt: &impl Abort, text: &str, read: Option<u32>, number: Option<u32>) {
    assert_eq!(rt; read, number, "{text:?}");
}

// The signal that was read from the text is this one.
fn is_signal(rt: &impl Abort, text: &str, read: Option<u8>, signal: Option<u8>) {
    assert_eq!(rt; read, signal, "{text:?}");
}

// An entry of this name is seen so.
fn is_seen(rt: &impl Abort, text: &str, seen: Seen) {
    assert_eq!(rt; name_of(text), seen, "{text}");
}

// Texts that say no number, with a bar between two.
const NO_NUMBERS: &str =
    "4294967296|18446744073709551617|9999999999999999999999999999999999999999||\n| 5|5 |5\n\n|\n5|5\r\n|+5|-5|5x|0x10|5\0|\u{b5}|5\u{ff}\n";

// Texts that say a number, and the number.
const NUMBERS: &str =
    "5000\n=5000|007=7|0=0|0000000000000000000000000000000000000005\n=5|4294967295=4294967295|4294967295\n=4294967295";

// The text and the number of a row.
fn row_of<'a>(rt: &impl Abort, row: &'a str) -> (&'a str, u32) {
    let (text, number) = row.split_once('=').expect(rt, "a row");
    (text, number.parse::<u32>().expect(rt, "a number"))
}

#[test]
fn reads_numbers(rt: HostRuntime) {
    for row in NUMBERS.split('|') {
        let (text, number) = row_of(&rt, row);
        is_number(&rt, text, parse_number(text.as_bytes()), Some(number));
    }
    for text in NO_NUMBERS.split('|') {
        is_number(&rt, text, parse_number(text.as_bytes()), None);
    }
    is_number(&rt, "64", parse_digits(b"64", 64), Some(64));
    is_number(&rt, "65", parse_digits(b"65", 64), None);
    is_number(&rt, "64\n", parse_digits(b"64\n", 64), None);
}

// Texts that say no signal, with a bar between two.
const NO_SIGNALS: &str =
    "hup|Hup|sigHUP|0|000|65|257|4294967297|18446744073709551617||\n|SIG|SIGSIGHUP|SIG1|HUP\n\n|1\n\n| HUP|HUP |HU|HUPS|RTMIN|CLD|HUP\u{ff}";

// As `kill -l` lists them on Linux for x86-64, from 1 on.
const SIGNALS: &str =
    "HUP INT QUIT ILL TRAP ABRT BUS FPE KILL USR1 SEGV USR2 PIPE ALRM TERM STKFLT CHLD CONT STOP TSTP TTIN TTOU URG XCPU XFSZ VTALRM PROF WINCH IO PWR SYS";

// Texts that say a signal, and its number.
const TEXTS: &str =
    "SIGHUP\n=1|HUP=1|1=1|15\n=15|064=64|000000000000000000000000000000000000000000009=9|SIGSTKFLT=16|SYS\n=31";

#[test]
fn reads_signals(rt: HostRuntime) {
    for row in TEXTS.split('|') {
        let (text, number) = row_of(&rt, row);
        is_signal(
            &rt,
            text,
            parse_signal(text.as_bytes()),
            u8::try_from(number).ok(),
        );
    }
    for text in NO_SIGNALS.split('|') {
        is_signal(&rt, text, parse_signal(text.as_bytes()), None);
    }
}

// The signal of this number has this name, or none.
fn is_named(rt: &impl Abort, number: u8, name: Option<&str>) {
    assert!(rt; signal_name(number) == name, "{number}");
}

#[test]
fn signals_have_their_names(rt: HostRuntime) {
    let mut number = 0u8;
    for name in SIGNALS.split(' ') {
        number = number.saturating_add(1);
        is_signal(&rt, name, signal_named(name.as_bytes()), Some(number));
        is_named(&rt, number, Some(name));
    }
    is_named(&rt, 0, None);
    is_named(&rt, 32, None);
    is_named(&rt, 255, None);
    is_signal(&rt, "SIGKILL", signal_named(b"SIGKILL"), Some(9));
    is_signal(&rt, "KILL\n", signal_named(b"KILL\n"), None);
    is_signal(&rt, "9", signal_named(b"9"), None);
}

// An entry of this name is a service's.
fn is_service(rt: &impl Abort, text: &str) {
    let name = Name::new(text.as_bytes()).expect(rt, "a name");
    is_seen(rt, text, Seen::Service(name));
}

#[test]
fn tells_names_from_hidden_and_bad_ones(rt: HostRuntime) {
    let longest = "a234567890123456789012345678901234567890123456789012345678901234";
    let longer = "a2345678901234567890123456789012345678901234567890123456789012345";
    is_service(&rt, "web");
    is_service(&rt, "getty@tty1");
    is_service(&rt, longest);
    for text in ".x . .. .a:b .s6-svscan".split(' ') {
        is_seen(&rt, text, Seen::Hidden);
    }
    for text in "|a:b|a b|a/b| web|w\u{e9}b|web\n".split('|') {
        is_seen(&rt, text, Seen::Bad);
    }
    is_seen(&rt, longer, Seen::Bad);
}

fn is_called(rt: &impl Abort, file: ServiceFile, name: &str) {
    assert_eq!(rt; file.name(), name);
}

#[test]
fn files_are_called_as_on_the_page(rt: HostRuntime) {
    is_called(&rt, ServiceFile::Run, "run");
    is_called(&rt, ServiceFile::Kind, "type");
    is_called(&rt, ServiceFile::Finish, "finish");
    is_called(&rt, ServiceFile::Down, "down");
    is_called(&rt, ServiceFile::NotificationFd, "notification-fd");
    is_called(&rt, ServiceFile::TimeoutKill, "timeout-kill");
    is_called(&rt, ServiceFile::TimeoutFinish, "timeout-finish");
    is_called(&rt, ServiceFile::MaxDeathTally, "max-death-tally");
    is_called(&rt, ServiceFile::DownSignal, "down-signal");
}
