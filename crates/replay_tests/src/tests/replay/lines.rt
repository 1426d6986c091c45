//! Which lines are inputs, and which input they are.
use super::{holds, same};
use s6_replay::ReplayFault;
use s6_script::{LineFault, parse_line};
use servicedir::Config;
use std::alloc::Global;
use std::process::Abort;
use std::test::Fail;
use tree_core::{Act, Entry};

// Lines that spell no input. A bar and a newline stand between them; the first is empty.
const NO_INPUTS: &str = "|
0 1|
0 1 |
tick|
0 tick|
0 1 Tick|
0 1 tick |
 0 1 tick|
0  1 tick|
0 1 tick 2|
0 1 tick\r|
+0 1 tick|
-1 1 tick|
00 1 tick|
0 01 tick|
0 16 tick|
0x1 1 tick|
1000000000000001 1 tick|
18446744073709551616 1 tick|
0 1 scan .web|
0 1 scan a/b|
0 1 scan web |
0 1 scan web:|
0 1 scan web:kill=0|
0 1 scan web:kill=007|
0 1 scan web:kill=|
0 1 scan web:kill|
0 1 scan web:kill=+1|
0 1 scan web:kill=4294967296|
0 1 scan web:finish,down|
0 1 scan web:down,down|
0 1 scan web:down,|
0 1 scan web:,down|
0 1 scan web:down:finish|
0 1 scan web:down finish:|
0 1 scan web:Down|
0 1 scan web:signal=0|
0 1 scan web:signal=15|
0 1 scan web:signal=65|
0 1 scan web:notify=0|
0 1 scan web:notify=2|
0 1 scan web:notify=10|
0 1 scan web:notify=|
0 1 scan web:fintime=5000|
0 1 scan web:fintime=4294967296|
0 1 scan web:tally=100|
0 1 scan web:tally=4097|
0 1 scan web:kill=1,notify=3|
0 1 scan :down|
0 1 scan .web:down|
0 1 scan web,down|
0 1 scan web:up|
0 1 scan !|
0 1 scan web!!|
0 1 scan web:down!|
0 1 scan web!:down|
0 1 scanctl|
0 1 scanctl a|
0 1 scanctl n t|
0 1 started 1 1|
0 1 started 1 1 0|
0 1 started 1 1 2147483648|
0 1 started 1 18446744073709551616 5|
0 1 started 1 1 5 6|
0 1 startfailed 1|
0 1 startfailed 1 1 1|
0 1 finished 1 1 signal 65|
0 1 death 1 1|
0 1 death 1 1 code|
0 1 death 1 1 code 256|
0 1 death 1 1 signal 65|
0 1 death 1 1 exit 0|
0 1 death 01 1 code 0|
0 1 notify 1 1|
0 1 notify 1 1 |
0 1 notify 1 1 0A|
0 1 notify 1 1 0a0|
0 1 notify 1 1 0g|
0 1 notify 1 1 0a 0a|
0 1 notify 1 01 0a|
0 1 notify 1 1 0a0a0a0a0a0a0a0a0a0a0a0a0a0a0a0a0a0a0a0a0a0a0a0a0a0a0a0a0a0a0a0a0a0a0a0a0a0a0a0a0a0a0a0a0a0a0a0a0a0a0a0a0a0a0a0a0a0a0a0a0a0a0a0a0a|
0 1 svc web|
0 1 svc web |
0 1 svc .web u|
0 1 svc web z|
0 1 svc web u d|
0 1 status|
0 1 status .web|
0 1 status web log|
0 1 tally|
0 1 tally .web|
0 1 tally web log|
0 1 wait u a|
0 1 wait x a 0 web|
0 1 wait uU a 0 web|
0 1 wait u b 0 web|
0 1 wait u a 00 web|
0 1 wait u a 4294967296 web|
0 1 wait u a 0 .web|
0 1 wait u a 0 web |
0 1 cancel|
0 1 cancel 01|
0 1 cancel 18446744073709551616|
0 1 cancel 1 2|
0 1 subscribe svc web once|
0 1 subscribe svc web once |
0 1 subscribe web once u|
0 1 subscribe svc web twice u|
0 1 subscribe dir q once a\tb|
0 1 subscribe dir q once \x7f|
0 1 subscribe dir q once é|
0 1 subscribe dir .q once (|
00 1 subscribe dir q once (|
0 1 subscribe dir q once aaaaaaaaaaaaaaaaaaaaaaaaaaaaaaaaaaaaaaaaaaaaaaaaaaaaaaaaaaaaaaaaaaaaaaaaaaaaaaaaaaaaaaaaaaaaaaaaaaaaaaaaaaaaaaaaaaaaaaaaaaaaaaaaaaaaaaaaaaaaaaaaaaaaaaaaaaaaaaaaaaaaaaaaaaaaaaaaaaaaaaaaaaaaaaaaaaaaaaaaaaaaaaaaaaaaaaaaaaaaaaaaaaaaaaaaaaaaaaaaaaaaaaaaaaaaaaaaa|
0 1 unsubscribe|
0 1 unsubscribe 01|
0 1 unsubscribe 18446744073709551616|
0 1 send dir q|
0 1 send dir q |
0 1 send dir q a b|
0 1 send q a|
0 1 send svc web sssssssssssssssssssssssssssssssssssssssssssssssssssssssssssssssss|
0 1 mkdir|
0 1 mkdir .q|
0 1 mkdir q q|
0 1 permafailon web 1 1|
0 1 permafailon web 1 1 |
0 1 permafailon .web 1 1 1|
0 1 permafailon web 4294967296 1 1|
0 1 permafailon web 1 4294967296 1|
0 1 permafailon web 01 1 1|
0 1 permafailon web 1 1 1 1|
0 1 permafailon web 1 1 01|
0 1 permafailon web 1 1 256|
0 1 permafailon web 1 1 2-1|
0 1 permafailon web 1 1 1-|
0 1 permafailon web 1 1 TERM|
0 1 permafailon web 1 1 SIGRTMIN|
0 1 permafailon web 1 1 sigterm|
0 1 permafailon web 1 1 1,|
0 1 permafailon web 1 1 1,,2|
0 1 permafailon web 1 1 0,1,2,3,4,5,6,7,8,9,10,11,12,13,14,15,16,17,18,19,20,21,22,23,24,25,26,27,28,29,30,31,32";

// Bytes that no text holds.
const NO_TEXTS: &[&[u8]] = &[b"0 1 subscribe dir q once \xff", b"\xff 1 tick"];

const INPUTS: &str = "1000000000000000 15 tick|
0 0 started 18446744073709551615 0 2147483647|
7 1 death 2 3 code 255|
7 1 death 2 3 signal 64|
7 1 startfailed 2 3|
7 1 notify 2 3 0a|
7 1 notify 2 3 0f0f0f0f0f0f0f0f0f0f0f0f0f0f0f0f0f0f0f0f0f0f0f0f0f0f0f0f0f0f0f0f0f0f0f0f0f0f0f0f0f0f0f0f0f0f0f0f0f0f0f0f0f0f0f0f0f0f0f0f0f0f0f0f|
7 1 finished 2 3 code 125|
7 1 finished 2 3 signal 0|
0 1 svc web abqhkti12pcyudOrx|
0 1 status web|
0 1 tally web|
0 1 wait u a 0|
0 1 wait U a 1 web|
0 1 wait d o 1 web|
0 1 wait D a 1 web log|
0 1 wait r a 1 web|
0 1 wait R o 4294967295 web web log|
0 1 cancel 18446744073709551615|
0 1 subscribe svc web once u|
0 1 subscribe dir q repeat  a  b |
0 1 subscribe dir q once aaaaaaaaaaaaaaaaaaaaaaaaaaaaaaaaaaaaaaaaaaaaaaaaaaaaaaaaaaaaaaaaaaaaaaaaaaaaaaaaaaaaaaaaaaaaaaaaaaaaaaaaaaaaaaaaaaaaaaaaaaaaaaaaaaaaaaaaaaaaaaaaaaaaaaaaaaaaaaaaaaaaaaaaaaaaaaaaaaaaaaaaaaaaaaaaaaaaaaaaaaaaaaaaaaaaaaaaaaaaaaaaaaaaaaaaaaaaaaaaaaaaaaaaaaaaaaaa|
0 1 unsubscribe 18446744073709551615|
0 1 send svc web u|
0 1 send dir q ssssssssssssssssssssssssssssssssssssssssssssssssssssssssssssssss|
0 1 mkdir q|
0 1 permafailon web 0 0 0|
0 1 permafailon web 4294967295 4294967295 255,0-255,7-7,SIGHUP,SIGSTKFLT,SIGSYS|
0 1 permafailon web 1 1 0,1,2,3,4,5,6,7,8,9,10,11,12,13,14,15,16,17,18,19,20,21,22,23,24,25,26,27,28,29,30,31|
0 1 scan|
0 1 scan web:down,finish,notify=3,kill=1,fintime=0,tally=0,signal=64|
0 1 scan web @-_.9 web|
0 1 scan web! @-_.9! log|
0 1 scanctl n|
0 1 scanctl t";

const REFUSED_PATTERNS: &str = "0 1 subscribe dir q once (|
0 1 subscribe svc web repeat a b[";

// Each of the lines is an input, or is none for this fault.
fn check_lines(rt: &impl Abort, alloc: Global, lines: &str, wanted: Option<LineFault>) {
    for line in lines.split("|\n") {
        let found = parse_line(alloc, alloc, line.as_bytes()).err();
        holds(rt, line, found == wanted);
    }
}

#[test]
fn lines_that_spell_inputs_or_none(rt: HostRuntime) {
    check_lines(&rt, rt.alloc(), NO_INPUTS, Some(LineFault::Line));
    check_lines(&rt, rt.alloc(), INPUTS, None);
    check_lines(&rt, rt.alloc(), REFUSED_PATTERNS, Some(LineFault::Pattern));
    for line in NO_TEXTS {
        let found = parse_line(rt.alloc(), rt.alloc(), *line).err();
        holds(
            &rt,
            "a line that is no text",
            found == Some(LineFault::Line),
        );
    }
}

// Entries with their options, and what is read of them; the last directory couldn't be read.
const ENTRIES: &[(&str, Option<Config>)] = &[
    (
        "0 1 scan web:down,finish,notify=3,kill=1,fintime=0,tally=0,signal=64",
        Some(Config {
            down: true,
            finish: true,
            notification_fd: Some(3),
            timeout_kill: 1,
            timeout_finish: 0,
            max_death_tally: 0,
            down_signal: 64,
        }),
    ),
    (
        "0 1 scan web:notify=1,kill=4294967295,fintime=4294967295,tally=4096,signal=1",
        Some(Config {
            down: false,
            finish: false,
            notification_fd: Some(1),
            timeout_kill: 4_294_967_295,
            timeout_finish: 4_294_967_295,
            max_death_tally: 4096,
            down_signal: 1,
        }),
    ),
    ("0 1 scan web! log", None),
];

// The first entry of a scan that this line spells.
fn first_entry(alloc: Global, line: &str) -> Option<Entry> {
    let input = parse_line(alloc, alloc, line.as_bytes()).ok()?;
    match &input.act {
        Act::Scan(listing) => listing.entries().first().copied(),
        _ => None,
    }
}

#[test]
fn an_entry_has_its_options(rt: HostRuntime) -> Result<(), Fail> {
    for (line, config) in ENTRIES {
        let entry = first_entry(rt.alloc(), *line).ok_or("an entry")?;
        same(&rt, *line, entry.name.as_bytes(), b"web");
        holds(&rt, *line, entry.config == *config);
    }
    Ok(())
}

const FAULTS: &[(ReplayFault, u8, &str)] = &[
    (ReplayFault::Head, 1, "no head line"),
    (ReplayFault::Line(7), 2, "line 7 is no input"),
    (
        ReplayFault::Pattern(7),
        3,
        "the pattern in line 7 does not build",
    ),
    (ReplayFault::Truncated, 4, "the last line is not whole"),
    (ReplayFault::Read, 5, "the script was not read"),
    (ReplayFault::Write, 6, "the transcript was not written"),
    (ReplayFault::NoMemory, 7, "out of memory"),
];

#[test]
fn faults_have_their_numbers_and_texts(rt: HostRuntime) -> Result<(), Fail> {
    for (fault, number, text) in FAULTS {
        let found = format!(in rt.alloc(); "{fault}")?;
        same(&rt, *text, found.as_bytes(), text.as_bytes());
        holds(&rt, *text, fault.number() == *number);
    }
    Ok(())
}
