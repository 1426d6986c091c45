//! Tries the backend of real processes: carries out the commands of standard input, and prints what
//! was reported.
#![tactic(auto)]

mod commands;
mod gate;
mod lane;
mod noted;
mod orders;
mod reports;
mod stage;
mod words;

use gate::start_lane;
use stage::TestStage;
use std::sync::Arc;
use std::{env, fs, io, process};

// The folder of the services: a new one for each run, since two runs may go on at once.
fn root_of(rt: &HostRuntime) -> io::Result<String> {
    let temp = env::temp_dir(rt)?;
    let number = process::id(rt.process());
    Ok(format!(in rt.alloc(); "{}/child-trial-{number}", temp.as_path().display())?)
}

fn main(rt: HostRuntime) -> io::Result<()> {
    let script = io::read_to_string(rt.alloc(), rt.reader())?;
    let root = root_of(&rt)?;
    fs::create_dir_all(&rt, root.as_str())?;
    let mut stage = TestStage::new(rt, rt.alloc(), root.as_str())?;
    let (backend, wires) = stage.open_lane()?;
    let link = Arc::try_clone(&wires.link)?;
    let thread = start_lane(rt, wires, backend)?;
    let tried = stage.try_all(script.as_str());
    link.end(&rt);
    let _ = thread.join(&rt);
    stage.end_all();
    fs::remove_dir_all(&rt, root.as_str())?;
    tried
}
