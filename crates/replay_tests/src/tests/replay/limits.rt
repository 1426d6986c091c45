//! The limits of a line and of a tree, and scripts with many lines.
use super::Case;
use super::rows::check_case;
use crate::tests::templates::{Part, make_text};
use std::alloc::Global;
use std::process::Abort;
use std::test::Fail;

// A script and its transcript, each behind its first line as templates, and the answer in words.
struct Limit {
    name: &'static str,
    script: &'static [Part],
    answer: &'static str,
    transcript: &'static [Part],
}

const LIMITS: &[Limit] = &[
    Limit {
        name: "many ticks",
        script: &[(1000, "0 1 tick\n")],
        answer: "1000 inputs, 0 events, 0 orders",
        transcript: &[(1000, "# done\n")],
    },
    Limit {
        name: "two-hundred-fifty-seventh-subscription",
        script: &[(1, "0 1 mkdir q\n"), (257, "0 1 subscribe dir q once z\n")],
        answer: "258 inputs, 0 events, 0 orders",
        transcript: &[
            (1, "1 done\n"),
            (256, "@ sub #\n"),
            (1, "258 refused TooMany\n"),
        ],
    },
    Limit {
        name: "scan-beyond-two-hundred-fifty-six-services",
        script: &[(1, "0 1 scan"), (257, " n%"), (1, "\n")],
        answer: "1 inputs, 256 events, 256 orders",
        transcript: &[
            (1, "1 scanned"),
            (256, " +#:n%"),
            (1, " full:n257\n"),
            (256, "e # s\n"),
            (256, "o run # 1\n"),
        ],
    },
    Limit {
        name: "waiter-beyond-a-thousand-and-twenty-four",
        script: &[
            (1, "0 1 scan a:down b:down\n"),
            (1025, "0 1 wait u a 0 a\n"),
        ],
        answer: "1026 inputs, 2 events, 0 orders",
        transcript: &[
            (1, "1 scanned +1:a +2:b\ne 1 s\ne 2 s\n"),
            (1024, "@ wait #\n"),
            (1, "1026 refused TooMany\n"),
        ],
    },
];

// The first line that is behind the head line is as long as may be, or longer.
const LONG_LINES: &[Limit] = &[
    Limit {
        name: "65,535 letters and a newline",
        script: &[(65_535, "a"), (1, "\n")],
        answer: "line 2 is no input",
        transcript: &[],
    },
    Limit {
        name: "65,535 letters",
        script: &[(65_535, "a")],
        answer: "the last line is not whole",
        transcript: &[],
    },
    Limit {
        name: "65,536 letters",
        script: &[(65_536, "a")],
        answer: "the last line is not whole",
        transcript: &[],
    },
    Limit {
        name: "65,536 letters and a newline",
        script: &[(65_536, "a"), (1, "\n")],
        answer: "line 2 is no input",
        transcript: &[],
    },
    Limit {
        name: "line-beyond-its-limit-without-newline",
        script: &[(65_537, "a")],
        answer: "line 2 is no input",
        transcript: &[],
    },
    Limit {
        name: "65,537 letters and a newline",
        script: &[(65_537, "a"), (1, "\n")],
        answer: "line 2 is no input",
        transcript: &[],
    },
    Limit {
        name: "a scan of 65,536 bytes",
        script: &[(1, "0 1 scan"), (1008, A_NAME), (1, " bbbbbb\n")],
        answer: "1 inputs, 0 events, 0 orders",
        transcript: &[(1, "1 refused Repeated\n")],
    },
    Limit {
        name: "a scan of 65,537 bytes",
        script: &[(1, "0 1 scan"), (1008, A_NAME), (1, " bbbbbbb\n")],
        answer: "line 2 is no input",
        transcript: &[],
    },
];

// A space and a name of 64 letters.
const A_NAME: &str = " aaaaaaaaaaaaaaaaaaaaaaaaaaaaaaaaaaaaaaaaaaaaaaaaaaaaaaaaaaaaaaaa";

fn check_limits(rt: &impl Abort, alloc: Global, limits: &[Limit]) -> Result<(), Fail> {
    for limit in limits {
        let script = make_text(alloc, "s6-script 1\n", limit.script)?;
        let written = make_text(alloc, "", limit.transcript)?;
        let case = Case {
            name: limit.name,
            script: script.as_str(),
            answer: limit.answer,
            written: written.as_str(),
        };
        check_case(rt, alloc, &case)?;
    }
    Ok(())
}

#[test]
fn lines_at_and_beyond_their_limit(rt: HostRuntime) -> Result<(), Fail> {
    check_limits(&rt, rt.alloc(), LONG_LINES)
}

#[test]
fn trees_at_and_beyond_their_limits(rt: HostRuntime) -> Result<(), Fail> {
    check_limits(&rt, rt.alloc(), LIMITS)
}
