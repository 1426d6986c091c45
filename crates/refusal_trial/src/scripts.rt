//! Scripts that are replayed, checked and migrated.
use crate::attempts::Text;
use s6_events::NoMemory;
use s6_replay::{ReplayFault, check, migrate, run};
use std::alloc::Global;
use std::io::Write;

/// A script of version 1.
const SCRIPT: &[u8] = b"s6-script 1
0 0 scan web other
0 1 started 1 1 500
5 1 notify 1 1 0a
5 0 subscribe dir q repeat a+b
6 0 mkdir q
6 0 subscribe dir q repeat a+b
7 0 wait u o 100 other
8 0 send dir q aab
9 0 svc web d
9 0 status web
200 0 tick
";

/// The same run as a record: each input has its reply.
const RECORD: &[u8] = b"s6-script 2
0 0 scan web other
= scanned +1:other +2:web
0 1 started 1 1 500
= done
5 0 subscribe dir q repeat a+b
= refused NoSuch
6 0 mkdir q
= done
";

/// A script of version 1.
const OLD: &[u8] = b"s6-script 1
0 0 scan web
0 1 started 1 1 500
0 0 svc web d
";

/// Replays a script.
pub fn replay(alloc: Global, text: &mut Text) -> Result<(), NoMemory> {
    let mut script = SCRIPT;
    match run(alloc, alloc, &mut script, text) {
        Ok(_) => Ok(()),
        Err(fault) => tell(fault, text),
    }
}

/// Checks a record.
pub fn check_script(alloc: Global, text: &mut Text) -> Result<(), NoMemory> {
    let mut script = RECORD;
    match check(alloc, alloc, &mut script) {
        Ok(checked) => {
            let _ = writeln!(text, "{checked:?}");
            Ok(())
        }
        Err(fault) => tell(fault, text),
    }
}

/// Migrates a script.
pub fn migrate_script(alloc: Global, text: &mut Text) -> Result<(), NoMemory> {
    let mut script = OLD;
    match migrate(alloc, alloc, &mut script, text) {
        Ok(_) => Ok(()),
        Err(fault) => tell(fault, text),
    }
}

// Tells a fault, unless it is a refusal.
fn tell(fault: ReplayFault, text: &mut Text) -> Result<(), NoMemory> {
    if fault == ReplayFault::NoMemory {
        return Err(NoMemory);
    }
    let _ = writeln!(text, "{fault:?}");
    Ok(())
}
