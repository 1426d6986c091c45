//! What the command line asks for.
use servicedir::parse_digits;
use std::env::{Env, FillError};

/// What `figures --help` prints.
pub const HELP: &[u8] = b"usage: figures steps SEATS COUNT
       figures --help

  steps       a tree alone takes COUNT inputs a seat, and then an office
              takes the same: each seat has a service that starts, dies
              and waits
  SEATS       1 or 15
  COUNT       at least 1; at most 262143 for all seats together

Prints two lines, and ends with 0. Ends with 100 after a wrong usage,
and with 111 where the system refused something.
";

/// The line for words that ask for nothing.
pub const USAGE: &[u8] = b"figures: usage: figures steps 1|15 COUNT\n";

// No word that is known is longer.
const LONGEST_WORD: usize = 16;

/// The most acts that may be measured: with the scan before them, as many steps as a run may have.
const GREATEST_STEPS: u32 = 262_143;

/// How much is measured: how many seats hand acts in, and how many acts each of them.
#[derive(Clone, Copy)]
pub struct Load {
    pub seats: u8,
    pub count: u32,
}

impl Load {
    /// How often they do it all together.
    pub fn all(self) -> u64 {
        u64::from(self.seats) * u64::from(self.count)
    }
}

/// What the command line asks for.
#[derive(Clone, Copy)]
pub enum AskedFigures {
    Help,
    /// To measure the steps that so many acts of so many seats take.
    Steps(Load),
}

// Whether the command line has a word at this place; the program's name is at 0.
fn has_word(env: &impl Env, place: usize) -> bool {
    let mut room = [0; LONGEST_WORD];
    !matches!(env.arg(place, &mut room), Err(FillError::NotPresent))
}

// The word at this place; empty where there is none, and where it is too long for the room.
fn word<'a>(env: &impl Env, place: usize, room: &'a mut [u8; LONGEST_WORD]) -> &'a [u8] {
    let count = env.arg(place, room).unwrap_or(0);
    &room[..count]
}

// The number at this place, from 1 to so many; 0 where there is none.
fn number(env: &impl Env, place: usize, most: u32) -> u32 {
    let mut room = [0; LONGEST_WORD];
    parse_digits(word(env, place, &mut room), most).unwrap_or(0)
}

// How many seats; 0 where the word tells none.
fn read_seats(env: &impl Env) -> u8 {
    let mut room = [0; LONGEST_WORD];
    match word(env, 2, &mut room) {
        b"1" => 1,
        b"15" => 15,
        _ => 0,
    }
}

impl Load {
    // Whether seats do something, and a run may have so many steps.
    fn is_of_seats(self) -> bool {
        self.all() > 0 && self.all() <= u64::from(GREATEST_STEPS)
    }
}

/// What the command line asks for; None where it has other words than `--help` tells.
pub fn read_words(env: &impl Env) -> Option<AskedFigures> {
    let load = Load {
        seats: read_seats(env),
        count: number(env, 3, GREATEST_STEPS),
    };
    let mut room = [0; LONGEST_WORD];
    match word(env, 1, &mut room) {
        b"steps" if load.is_of_seats() && !has_word(env, 4) => Some(AskedFigures::Steps(load)),
        b"--help" if !has_word(env, 2) => Some(AskedFigures::Help),
        _ => None,
    }
}
