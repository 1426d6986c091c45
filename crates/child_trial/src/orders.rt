//! The commands that are orders.
use crate::commands::{cut, number_of};
use crate::stage::TestStage;
use s6_events::{Name, Order, Sid};
use std::fs::File;
use std::io::{self, ErrorKind};
use std::process::{Processes, SystemProcess};
use std::rt::Files;
use std::sync::Wait;
use std::time::Clock;

// The order of this name to a service.
fn order_of(verb: &str, sid: Sid, words: &str) -> Option<Order> {
    match verb {
        "run" => run_of(sid, words),
        "finish" => finish_of(sid, words),
        "signal" => Some(Order::Signal(sid, 1, words.parse::<u8>().ok()?)),
        "kill-finish" => Some(Order::KillFinish(sid, 1)),
        _ => None,
    }
}

fn run_of(sid: Sid, words: &str) -> Option<Order> {
    let (service, descriptor) = cut(words);
    let name = Name::new(service.as_bytes())?;
    Some(Order::Run(sid, 1, name, descriptor.parse::<u8>().ok()))
}

fn finish_of(sid: Sid, words: &str) -> Option<Order> {
    let (service, exit) = cut(words);
    let (code, signal) = cut(exit);
    let name = Name::new(service.as_bytes())?;
    let (code, signal) = (code.parse::<u16>().ok()?, signal.parse::<u8>().ok()?);
    Some(Order::Finish(sid, 1, name, code, signal))
}

// The first and the last of some services: `8`, or `0-63`.
fn range_of(services: &str) -> io::Result<(u64, u64)> {
    let (first, last) = services.split_once('-').unwrap_or((services, services));
    Ok((number_of(first)?, number_of(last)?))
}

impl<
    R: Print + Processes<Started = SystemProcess> + Files<File = File> + Wait + Clock + Drop,
> TestStage<R> {
    /// Asks an order for each of some services, and prints which are refused.
    pub fn ask_all(&mut self, verb: &str, words: &str) -> io::Result<()> {
        let (services, words) = cut(words);
        let (first, last) = range_of(services)?;
        for sid in first..=last {
            let Some(order) = order_of(verb, Sid(sid), words) else {
                return Err(io::Error::from(ErrorKind::InvalidInput));
            };
            if !self.ask(order) {
                println!(self.rt; "{sid} refused")?;
            }
        }
        Ok(())
    }
}
