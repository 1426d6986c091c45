//! A client of a tree that isn't there.
use crate::attempts::Text;
use s6_events::NoMemory;
use s6_tools::run_client;
use std::alloc::Global;
use std::io::Write;
use std::net::Net;
use std::process::Processes;
use std::time::Clock;
use tool_lines::Tool;

/// The words of each tool.
const WORDS: [(Tool, &str); 4] = [
    (Tool::Svc, "/nowhere -u web"),
    (Tool::Svwait, "/nowhere -U web other"),
    (Tool::FtrigWait, "/nowhere q a+"),
    (Tool::Permafailon, "/nowhere web 60 3 1-2,SIGTERM"),
];

/// Runs some tools with no server, and prints what each tells.
pub fn ask_nobody<R: Net + Processes + Clock>(
    rt: &R,
    alloc: Global,
    text: &mut Text,
) -> Result<(), NoMemory> {
    for (tool, words) in WORDS.iter() {
        let mut errors = Text::new();
        let mut split = Vec::new(alloc);
        for word in words.split(' ') {
            split.push(word)?;
        }
        let status = run_client(rt, alloc, *tool, split.as_slice(), text, &mut errors);
        if errors
            .as_slice()
            .windows(9)
            .any(|bytes| bytes == b"no memory".as_slice())
        {
            return Err(NoMemory);
        }
        let _ = writeln!(text, "{status}");
        let _ = text.try_extend_from_slice(errors.as_slice());
    }
    Ok(())
}
