//! The history of what was published on a board. For proofs alone, but for a counter of the shots.
ghost use Rattle.std.specs.Prelude.{◌≡◌, ◌+◌, ◌==◌, ◌<◌, ◌≤◌, ◌^◌, ◌++◌, ◌∷◌, [], length, nat_le, MatchBool, IsTrue, IsFalse};
ghost use mathlib.Core.List.{IsPrefix};
ghost use Rattle.status_board.specs.History.{count_of};

use crate::published_shot::StandingRows;
use crate::shot::Shot;
use channel_names::Channels;
use logbook::{Gain, Offer, Plain, Play, Rule, Seen, Word};
use std::alloc::Allocator;
use std::marker::{Model, PhantomData};

/// The rule of the history: its first word, an atomic number, counts the shots.
pub struct CountedShots;

impl Rule<Shot, u64> for CountedShots {
    ghost use Rattle.std.specs.Prelude.{[]};
    ghost use base.Fml.{ftrue};
    ghost use Rattle.status_board.specs.History.{CountsShots};

    ghost holds = { λ cells log. CountsShots cells log };

    ghost first = { [] };

    ghost hinted = { λ n log. Unit {0} };

    ghost shows = { λ log. [] };

    ghost keeps = { λ names log. ftrue };

    ghost moves = { λ ask before after answer. Unit {0} };
}

/// Whoever adds a shot to the history gets nothing in return.
pub struct NothingGained;

impl Gain<Shot, u64> for NothingGained {
    ghost use base.Fml.{ftrue};

    ghost after = { λ names about answer. ftrue };
}

/// The step of the word by which a shot is added to the history.
pub struct AddsShot;

impl Play<Shot, u64> for AddsShot {
    ghost use Rattle.status_board.specs.History.{Adds};

    ghost then = { Adds };
}

// The shot that is added is the one that these rows show.
impl<A: Allocator> Plain<StandingRows<A>, Shot, u64> for AddsShot {
    ghost use Rattle.std.specs.Prelude.{None};

    ghost ask = { λ rows. rows };

    ghost state = { λ rows. None };
}

/// The word that counts the shots that were published.
pub type Count = Word<Shot, u64, CountedShots>;

/// A token of what its holder knows of the history: the shots that were published up to some
/// moment.
pub type Log = Seen<Shot, u64, CountedShots>;

/// All that was published up to some moment, oldest first: a beginning of the board's one history.
/// It takes the bytes of a number.
#[derive(Drop)]
pub struct Published<C: Channels> {
    count: u64,
    log: Log,
    // Names the board: what was published by another run's board has another type.
    channels: PhantomData<C>,
}

impl<C: Channels> Model for Published<C> {
    ghost use Rattle.std.specs.Prelude.{◌≡◌, List, length};
    ghost use Rattle.status_board.specs.declared.shot.Shot.{Shot};

    ghost Value = { List Shot };

    ghost view = { λ p. p.log.log };

    ghost invariant = { λ p. (p.count ≡ length p.log.log) × (p.log.book ≡ C.board) };
}

impl<C: Channels> Published<C> {
    // The beginning of a history in which nothing was published.
    pub(crate) fn over(log: Log) -> Published<C>
        requires { (log.book ≡ C.board) × (log.log ≡ []) }
        ensures { result ≡ [] }
    {
        Published {
            count: 0,
            log,
            channels: PhantomData,
        }
    }

    // What is known of the history.
    pub(crate) fn into_log(self) -> Log
        ensures { (result.book ≡ C.board) × (result.log ≡ self) }
    {
        let Published {
            count: _,
            log,
            channels: _,
        } = self;
        log
    }

    /// A copy: the same shots. `again` makes a second token of what is known.
    pub fn copied(&self) -> Published<C>
        ensures { result ≡ self.now }
    {
        Published {
            count: self.count,
            log: self.log.again(),
            channels: PhantomData,
        }
    }

    /// Becomes the other, if that has no fewer shots, and returns whether it did. Of two beginnings
    /// of one history the shorter is a beginning of the longer.
    pub fn follow(&mut self, other: &Published<C>) -> bool
        ensures whether { result ≡ nat_le (length self.old) (length other.now) }
        ensures yes { IsTrue result → (self.new ≡ other.now) × IsPrefix self.old self.new }
        ensures no { IsFalse result → (self.new ≡ self.old) × IsPrefix other.now self.old }
    {
        // It exists in proofs alone: what is known of both lies in one history, so that one of them
        // begins the other.
        let mut both = self.log.again();
        both.learn(&other.log);
        if other.count < self.count {
            return false;
        }
        *self = other.copied();
        true
    }

    // Adds a shot to the history, and returns whether it did: not where the history has more shots
    // than these, or these are 2^64 - 1. `word` is an atomic number that counts the shots of the
    // history.
    pub(crate) fn add<A: Allocator>(&mut self, word: &Count, rows: &StandingRows<A>) -> bool
        requires word { word.now ≡ count_of C.board }
        ensures yes { IsTrue result → self.new ≡ self.old ++ rows.now ∷ [] }
        ensures no { IsFalse result → self.new ≡ self.old }
    {
        if self.count == u64::MAX {
            return false;
        }
        let count = self.count;
        // `log`, `offer` and `pen` are tokens for proofs: what is known, the shot that is added,
        // and that no other word is made. `again` copies the token: the history keeps its own,
        // unless the shot is added.
        let mut log = self.log.again();
        let mut offer: Offer<Shot, u64, CountedShots, NothingGained> = log.plain::<
            NothingGained,
            StandingRows<A>,
            AddsShot,
        >(rows);
        let mut pen = log.no_pen();
        // Counts one more, if the word still counts `count` shots. The answer is what it counted.
        let found = word.compare_exchange::<AddsShot, NothingGained>(
            count,
            count + 1,
            &mut log,
            &mut offer,
            &mut pen,
        );
        // Not where the word counts more shots: then somebody else published one.
        if found != count {
            return false;
        }
        *self = Published {
            count: count + 1,
            log,
            channels: PhantomData,
        };
        true
    }
}
