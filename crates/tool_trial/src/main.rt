//! Tries the clients over a real socket, beside a server that answers by a table, and prints what
//! came of each.
#![tactic(auto)]

mod cases;
mod counted;
mod table;
mod whole_requests;

use cases::{ToldCases, try_all};
use std::io::Write;
use std::{env, fs, io, process};

// The path of the socket: a new one for each run, since two runs may go on at once.
fn path_of(rt: &HostRuntime) -> io::Result<String> {
    let temp = env::temp_dir(rt)?;
    let number = process::id(rt.process());
    Ok(format!(in rt.alloc(); "{}/tool-trial-{number}", temp.as_path().display())?)
}

fn main(rt: HostRuntime) -> io::Result<()> {
    let path = path_of(&rt)?;
    let mut told = ToldCases::new(rt.alloc());
    let _ = fs::remove_file(&rt, path.as_str());
    let outcome = try_all(&rt, rt.alloc(), path.as_str(), &mut told);
    let _ = fs::remove_file(&rt, path.as_str());
    rt.stdout().write_all(told.text.as_slice())?;
    outcome
}
