//! Scripts with recorded replies: migration, checking, and a replay that reads them.
use super::rows::check_case;
use super::{Case, Replayed, check_replayed, replay_in_memory, same, words_of};
use crate::tests::templates::make_text;
use s6_replay::{Checked, ReplayFault, check, migrate};
use std::alloc::Global;
use std::process::Abort;
use std::test::Fail;

// Scripts, what a migration answers, and what it writes.
pub const MIGRATIONS: &str = "status-of-a-running-service
s6-script 1
100 1 scan web
50 1 started 1 1 7
1100 1 status web
> 3 inputs, 2 events, 1 orders
s6-script 2
100 1 scan web
= scanned +1:web
50 1 started 1 1 7
= done
1100 1 status web
= row 1 web true true true false false 7 -1 -1 1 -1
# the same with its replies
s6-script 2
100 1 scan web
= scanned +1:web
50 1 started 1 1 7
= done
1100 1 status web
= row 1 web true true true false false 7 -1 -1 1 -1
> no head line
# a line that is no input
s6-script 1
100 1 scan web
50 1 start
> line 3 is no input
s6-script 2
100 1 scan web
= scanned +1:web
";

// Scripts, and what a check of them finds.
const CHECKS: &str = "each reply is the machine's
s6-script 2
100 1 scan web
= scanned +1:web
50 1 started 1 1 7
= done
1100 1 status web
= row 1 web true true true false false 7 -1 -1 1 -1
> legal 3
# a head line alone
s6-script 2
> legal 0
# no replies
s6-script 1
100 1 scan web
50 1 started 1 1 7
1100 1 status web
> no head line
# the last reply is another
s6-script 2
100 1 scan web
= scanned +1:web
50 1 started 1 1 7
= done
1100 1 status web
= row 1 web true true true false false 7 -1 -1 2 -1
> differs at line 7
# the second reply is another
s6-script 2
100 1 scan web
= scanned +1:web
50 1 started 1 1 7
= refused Stale
1100 1 status web
= done
> differs at line 5
";

// Scripts with faults in the lines of replies, and behind them: for a check and for a replay.
const REPLY_FAULTS: &str = "no reply
s6-script 2
0 1 tick
> the last line is not whole
# a reply without newline
s6-script 2
0 1 tick
= done> the last line is not whole
# an empty reply
s6-script 2
0 1 tick
=\x20
> line 3 is no input
# no space before the reply
s6-script 2
0 1 tick
=done
> line 3 is no input
# an empty line
s6-script 2
0 1 tick

> line 3 is no input
# a tab in the reply
s6-script 2
0 1 tick
= do\tne
> line 3 is no input
# no input behind the reply
s6-script 2
0 1 tick
= done
0 1 tock
= done
> line 4 is no input
# a refused pattern behind the reply
s6-script 2
0 1 tick
= done
1 1 subscribe dir q once (
> the pattern in line 4 does not build
";

// A replay reads the replies, and doesn't compare them.
const PASSED_OVER: &str = "other replies
s6-script 2
100 1 scan web
= done
50 1 started 1 1 7
= done
1100 1 status web
= -
> 3 inputs, 2 events, 1 orders
1 scanned +1:web
e 1 s
o run 1 1
2 done
e 1 u
3 row 1 web true true true false false 7 -1 -1 1 -1
";

// A migration of a script in memory.
fn migrate_in_memory(alloc: Global, script: &str) -> Replayed {
    let mut reader = script.as_bytes();
    let mut written = Vec::new(alloc);
    let answer = migrate(alloc, alloc, &mut reader, &mut written);
    Replayed { answer, written }
}

fn check_migration(rt: &impl Abort, alloc: Global, case: &Case) -> Result<(), Fail> {
    let found = migrate_in_memory(alloc, case.script);
    check_replayed(rt, alloc, &found, case)
}

#[test]
fn migrations_write_the_replies(rt: HostRuntime) -> Result<(), Fail> {
    for text in MIGRATIONS.split("# ") {
        check_migration(&rt, rt.alloc(), &Case::read(text))?;
    }
    Ok(())
}

// What a check of the script finds, in words.
fn found_by_check(alloc: Global, script: &str) -> Result<String, Fail> {
    let mut reader = script.as_bytes();
    Ok(match check(alloc, alloc, &mut reader) {
        Ok(Checked::Legal(inputs)) => format!(in alloc; "legal {inputs}")?,
        Ok(Checked::Differs(line)) => format!(in alloc; "differs at line {line}")?,
        Err(fault) => format!(in alloc; "{fault}")?,
    })
}

// A check of the script finds what the case says.
fn check_found(rt: &impl Abort, alloc: Global, case: &Case) -> Result<(), Fail> {
    let found = found_by_check(alloc, case.script)?;
    same(rt, case.name, found.as_bytes(), case.answer.as_bytes());
    Ok(())
}

#[test]
fn check_compares_each_reply(rt: HostRuntime) -> Result<(), Fail> {
    for text in CHECKS.split("# ") {
        check_found(&rt, rt.alloc(), &Case::read(text))?;
    }
    Ok(())
}

// A replay of the script answers so.
fn check_answer(rt: &impl Abort, alloc: Global, case: &Case) -> Result<(), Fail> {
    let found = replay_in_memory(alloc, case.script.as_bytes());
    let words = words_of(alloc, &found.answer)?;
    same(rt, case.name, words.as_bytes(), case.answer.as_bytes());
    Ok(())
}

#[test]
fn reply_lines_have_their_faults(rt: HostRuntime) -> Result<(), Fail> {
    for text in REPLY_FAULTS.split("# ") {
        let case = Case::read(text);
        check_found(&rt, rt.alloc(), &case)?;
        check_answer(&rt, rt.alloc(), &case)?;
    }
    Ok(())
}

// A check of a script of one tick, whose reply has so many letters, finds this.
fn check_long_reply(
    rt: &impl Abort,
    alloc: Global,
    letters: u32,
    wanted: &str,
) -> Result<(), Fail> {
    let parts = [(letters, "x"), (1, "\n")];
    let script = make_text(alloc, "s6-script 2\n0 1 tick\n= ", &parts)?;
    let found = found_by_check(alloc, script.as_str())?;
    same(rt, "a long reply", found.as_bytes(), wanted.as_bytes());
    Ok(())
}

#[test]
fn a_reply_line_has_262_144_bytes_at_most(rt: HostRuntime) -> Result<(), Fail> {
    check_long_reply(&rt, rt.alloc(), 262_141, "differs at line 3")?;
    check_long_reply(&rt, rt.alloc(), 262_142, "line 3 is no input")
}

#[test]
fn replay_passes_over_recorded_replies(rt: HostRuntime) -> Result<(), Fail> {
    check_case(&rt, rt.alloc(), &Case::read(PASSED_OVER))
}
