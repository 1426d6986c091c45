//! The end of the board that publishes shots: the status rows of all services after some step.
//! `left_right` keeps two copies of what is shown.
ghost use Rattle.std.specs.Prelude.{◌≡◌, ◌^◌, ◌<◌, [], ◌∷◌, ◌++◌, IfErr, IfOk, OnErr, OnOk};
ghost use Rattle.status_board.specs.History.{count_of};

use crate::history::{Count, Log, Published};
use crate::published_shot::{PublishedShot, StandingRows};
use crate::reader::BoardReader;
use crate::shot::Shot;
use crate::shown::{Next, Shown};
use crate::told::Told;
use channel_names::Channels;
use left_right::{Absorb, WriteHandle};
use logbook::{Seen, Start, Word};
use s6_events::NoMemory;
use std::alloc::{Allocator, Global};
use std::marker::Model;
use std::sync::{Arc, OnceLock, Wait};
use thiserror::Error;

/// The board gave no reader: each of its places for one is in use, or memory was refused. Nothing
/// has changed.
#[derive(Clone, Copy, PartialEq, Eq, Debug, Error)]
#[error("the board has no place for a reader")]
pub struct NoReader;

/// A history in which nothing was published, and which no run has named yet. Contracts see it as
/// its name.
#[derive(Drop)]
pub struct NewBoard {
    word: Count,
    log: Log,
}

impl Model for NewBoard {
    ghost use Rattle.std.specs.Prelude.{◌≡◌, []};
    ghost use Rattle.logbook.specs.Pages.{Book};
    ghost use Rattle.status_board.specs.History.{count_of};

    ghost Value = { Book };

    ghost view = { λ b. b.log.book };

    ghost invariant = { λ b. (b.log.log ≡ []) × (b.word ≡ count_of b.log.book) };
}

impl NewBoard {
    /// A new history of what will be published, which is nothing yet. `word` is an atomic number
    /// that counts the shots; `log` is a token, for proofs, of what is known of them.
    pub fn new() -> NewBoard {
        // The history of a `logbook` has two words: the first counts the shots, and the second is
        // not used.
        let (log, mut first, _second) = Seen::open(Start::alone(), 0, 0);
        NewBoard {
            word: Word::tracked(0, &mut first),
            log,
        }
    }

    /// A board on which these rows are published, with places for `readers` readers at a time. `C`
    /// names its history: `word` counts the shots in it, and `published` is what is known of it.
    /// `NoMemory` where memory is refused: the history comes back as it was.
    pub fn open<C: Channels, R: Wait + Drop, A: Allocator + Copy>(
        self,
        alloc: A,
        rt: R,
        readers: usize,
        first: StandingRows<A>,
    ) -> Result<BoardWriter<C, R, A>, (NewBoard, NoMemory)>
        requires board { self ≡ C.board }
        requires readers { (0 < readers) × (readers < 2 ^ 32) }
        ensures ok { IfOk result (λ writer. writer ≡ first ∷ []) }
        ensures err { IfErr result (λ refused. refused.0 ≡ self) }
    {
        // `log` is a token, for proofs, of what is known of the history.
        let NewBoard { word, log } = self;
        let published: Published<C> = Published::over(log);
        // The two copies of what is shown.
        let (one, other) = (Shown::nothing(), Shown::nothing());
        let Ok(handle) = WriteHandle::new(alloc, rt, one, other, readers) else {
            return Err((NewBoard::again(word, published), NoMemory));
        };
        let mut writer = BoardWriter {
            alloc,
            handle,
            word,
            published,
        };
        // So the board shows rows from the start.
        match writer.publish_rows(first) {
            Ok(()) => Ok(writer),
            // The writer has published nothing, so it becomes a new board again.
            Err(refused) => Err((writer.into_new(), refused)),
        }
    }

    // Puts a new board together again, on which nothing was published: the count of its shots, and
    // the history.
    fn again<C: Channels>(word: Count, published: Published<C>) -> NewBoard
        requires word { word ≡ count_of C.board }
        requires published { published ≡ [] }
        ensures { result ≡ C.board }
    {
        NewBoard {
            word,
            log: published.into_log(),
        }
    }
}

/// The end of the board that publishes. Contracts see it as all that was published, oldest first.
#[derive(Drop)]
pub struct BoardWriter<C: Channels, R: Wait + Drop, A: Allocator + Copy = Global>
where
    Shown<C, A>: Absorb<Next<C, A>, State = ()>,
{
    alloc: A,
    // Two copies of what is shown; the one that nobody reads is brought up to date by what is to
    // come (`Next`), and then shown.
    handle: WriteHandle<Shown<C, A>, Next<C, A>, R, A>,
    // Counts the shots that were published.
    word: Count,
    published: Published<C>,
}

impl<C: Channels, R: Wait + Drop, A: Allocator + Copy> Model for BoardWriter<C, R, A>
where
    Shown<C, A>: Absorb<Next<C, A>, State = ()>,
{
    ghost use Rattle.std.specs.Prelude.{◌≡◌, List};
    ghost use Rattle.status_board.specs.declared.shot.Shot.{Shot};
    ghost use Rattle.status_board.specs.History.{count_of};

    ghost Value = { List Shot };

    ghost view = { λ w. w.published };

    ghost invariant = { λ w. w.word ≡ count_of C.board };
}

impl<C: Channels, R: Wait + Drop, A: Allocator + Copy> BoardWriter<C, R, A> {
    // A new board again, from a writer that has published nothing: the count of its shots, and the
    // history.
    fn into_new(self) -> NewBoard
        requires { self ≡ [] }
        ensures { result ≡ C.board }
    {
        let BoardWriter {
            alloc: _,
            handle: _,
            word,
            published,
        } = self;
        NewBoard::again(word, published)
    }

    /// Publishes this shot, as `publish_rows` does. Only the rows that it has are copied, once,
    /// into memory that the board keeps.
    pub fn publish(&mut self, shot: &Shot) -> Result<(), NoMemory>
        ensures added { OnOk result (self.new ≡ self.old ++ shot.now ∷ []) }
        ensures same { OnErr result (self.new ≡ self.old) }
    {
        let rows = StandingRows::of(self.alloc, shot)?;
        self.publish_rows(rows)
    }

    /// Publishes this shot, and keeps its rows: readers see it from now on. `NoMemory` where memory
    /// is refused: nothing was published. It may wait for readers that are reading, and is the only
    /// call of the board that waits.
    #[tactic(auto, using(crate::proofs::Lasts::last_or_snoc))]
    pub fn publish_rows(&mut self, rows: StandingRows<A>) -> Result<(), NoMemory>
        ensures added { OnOk result (self.new ≡ self.old ++ rows ∷ []) }
        ensures same { OnErr result (self.new ≡ self.old) }
    {
        // The place of what is to be shown, which is empty yet, and a second handle of it for the
        // copies.
        let next: Next<C, A> = Arc::new(self.alloc, OnceLock::new())?;
        let theirs = Arc::try_clone(&next)?;
        // Both copies are to show this place, from the next `publish` on.
        if self.handle.append(theirs).is_err() {
            return Err(NoMemory);
        }
        // All memory is there. What the writer knows of the board's history (`published`, for
        // proofs alone) is all of it, since there is one writer. The shot is added to a copy of
        // that.
        let mut published = self.published.copied();
        if !published.add(&self.word, &rows) {
            // This would come only after 2^64 - 1 shots.
            return Err(NoMemory);
        }
        // The writer keeps one copy, with this shot; the other goes to the readers, with the rows.
        self.published = published.copied();
        // The place is new, so this sets it.
        let _set = next.try_set(PublishedShot::new(rows, published));
        // It never fails in fact: a copy only shares the new place once more, which takes no
        // memory.
        let _shown = self.handle.publish();
        Ok(())
    }

    /// All shots that were published so far, for a reader to learn.
    pub fn tell(&self) -> Told<C>
        ensures { result ≡ self.now }
    {
        Told {
            published: self.published.copied(),
        }
    }

    /// A reader that knows all shots that were published so far. `NoReader` where the board has no
    /// place for one more, or memory is refused.
    pub fn reader(&self) -> Result<BoardReader<C, A>, NoReader>
        ensures { IfOk result (λ reader. reader ≡ self.now) }
    {
        let Ok(handle) = self.handle.handle() else {
            return Err(NoReader);
        };
        Ok(BoardReader::over(handle, self.published.copied()))
    }
}
