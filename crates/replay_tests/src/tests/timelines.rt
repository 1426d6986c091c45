//! Timelines: how many lanes a picture has, what a lane shows, and that no two of its intervals are
//! at one place.
use super::holds;
use super::tool::CommandWords;
use replay_tool::run_tool;
use std::alloc::Global;
use std::process::Abort;
use std::test::Fail;

// Services of each shade: `web` pauses, `db` gets ready, `job` fails for good, `off` stays down,
// `old` is dropped and comes again.
const SCRIPT: &str = "s6-script 1
0 1 scan db:notify=3 job:finish off:down old web
0 1 started 5 1 500
0 1 started 1 1 501
0 1 started 2 1 502
0 1 started 4 1 503
100 1 notify 1 1 0a
300 1 death 5 1 code 1
300 1 death 2 1 code 1
400 1 finished 2 1 code 125
400 1 svc old xd
500 1 death 4 1 signal 15
600 1 scan db:notify=3 job:finish off:down web
900 1 scan db:notify=3 job:finish off:down old web
1000 1 started 6 1 504
2000 1 tick
";

// Each lane but its beginning, written by hand: 2,000 milliseconds are 1,000 pixels.
const LANES: &[(&str, &str)] = &[
    (
        ">db</text>",
        "\"#56B4E9\" stroke-width=\"11\" d=\"M0 0h50\"/>
<path stroke=\"#009E73\" stroke-width=\"16\" d=\"M50 0h950\"/>
</g>",
    ),
    (
        ">job</text>",
        "\"#56B4E9\" stroke-width=\"11\" d=\"M0 0h150\"/>
<path stroke=\"#CC79A7\" stroke-width=\"8\" d=\"M150 0h50\"/>
<path stroke=\"#D55E00\" stroke-width=\"16\" d=\"M200 0h800\"/>
</g>",
    ),
    (
        ">off</text>",
        "\"#999999\" stroke-width=\"2\" d=\"M0 0h1000\"/>
</g>",
    ),
    (
        ">old</text>",
        "\"#56B4E9\" stroke-width=\"11\" d=\"M0 0h250M500 0h500\"/>
<path stroke=\"#F0E442\" stroke-width=\"5\" d=\"M450 0h50\"/>
</g>",
    ),
    (
        ">web</text>",
        "\"#56B4E9\" stroke-width=\"11\" d=\"M0 0h150\"/>
<path stroke=\"#F0E442\" stroke-width=\"5\" d=\"M150 0h850\"/>
</g>",
    ),
];

// Marks of the axis, written by hand: eleven, each a fifth of a second behind the one before it.
// The lanes begin at 60.
const MARKS: &[&str] = &[
    "<text x=\"60\" y=\"170\" text-anchor=\"middle\">0.000</text>",
    "<text x=\"160\" y=\"170\" text-anchor=\"middle\">0.200</text>",
    "<text x=\"1060\" y=\"170\" text-anchor=\"middle\">2.000</text>",
];

// A number of tenths.
fn tenths_of(text: &str) -> Option<u64> {
    let (whole, tenth) = text.split_once('.').unwrap_or((text, "0"));
    let whole = whole.parse::<u64>().ok()?;
    let tenth = tenth.parse::<u64>().ok()?;
    whole.checked_mul(10)?.checked_add(tenth)
}

// The interval of a move and a line, as of `12.3 0h4`.
fn interval_of(text: &str) -> Option<(u64, u64)> {
    let (from, width) = text.split_once(" 0h")?;
    let from = tenths_of(from)?;
    let width = tenths_of(width)?;
    Some((from, from.checked_add(width)?))
}

// The intervals of a lane, in the order of their beginnings. One that can't be read is told as all.
fn intervals_of(alloc: Global, lane: &str) -> Result<Vec<(u64, u64)>, Fail> {
    let mut found = Vec::new(alloc);
    for path in lane.split(" d=\"").skip(1) {
        let (moves, _) = path.split_once('"').unwrap_or((path, ""));
        for text in moves.split('M').skip(1) {
            found.push(interval_of(text).unwrap_or((0, u64::MAX)))?;
        }
    }
    found.as_mut_slice().sort_unstable();
    Ok(found)
}

// Each of them ends before the next one begins, and the last one within the lane.
fn are_apart(intervals: &[(u64, u64)]) -> bool {
    let mut free = 0;
    for (from, to) in intervals {
        if *from < free || *to <= *from || 10_000 < *to {
            return false;
        }
        free = *to;
    }
    true
}

// A lane is that of this name, shows this, and has no two intervals at one place.
fn check_lane(
    rt: &impl Abort,
    alloc: Global,
    lane: &str,
    wanted: &(&'static str, &'static str),
) -> Result<(), Fail> {
    let (name, shows) = *wanted;
    holds(rt, name, lane.contains(name) && lane.contains(shows));
    let intervals = intervals_of(alloc, lane)?;
    holds(
        rt,
        name,
        !intervals.is_empty() && are_apart(intervals.as_slice()),
    );
    Ok(())
}

#[test]
fn a_lane_for_each_service(rt: HostRuntime) -> Result<(), Fail> {
    let mut output = Vec::new(rt.alloc());
    let mut errors = Vec::new(rt.alloc());
    let words = CommandWords(&[b"replay", b"--timeline"]);
    let input = SCRIPT.as_bytes();
    let status = run_tool(
        &words,
        rt.alloc(),
        rt.alloc(),
        input,
        &mut output,
        &mut errors,
    );
    holds(&rt, "status", status == 0 && errors.is_empty());
    let picture = str::from_utf8(output.as_slice()).unwrap_or("");
    for mark in MARKS {
        holds(&rt, mark, picture.contains(mark));
    }
    holds(&rt, "marks", picture.split("#CCCCCC").count() == 12);
    let mut lanes = picture.split("<g class=\"lane\"").skip(1);
    for wanted in LANES {
        check_lane(&rt, rt.alloc(), lanes.next().unwrap_or(""), wanted)?;
    }
    holds(
        &rt,
        "the end",
        lanes.next().is_none() && picture.ends_with("</svg>\n"),
    );
    Ok(())
}

// Of what is no script there is no picture.
#[test]
fn no_picture_of_a_fault(rt: HostRuntime) {
    let mut output = Vec::new(rt.alloc());
    let mut errors = Vec::new(rt.alloc());
    let words = CommandWords(&[b"replay", b"--timeline"]);
    let input = b"s6-script 1\n0 1 scan web\n0 1 tock\n";
    let status = run_tool(
        &words,
        rt.alloc(),
        rt.alloc(),
        input.as_slice(),
        &mut output,
        &mut errors,
    );
    holds(&rt, "status", status == 100 && output.is_empty());
    holds(
        &rt,
        "line",
        errors.as_slice() == b"replay: line 3\n".as_slice(),
    );
}
