//! The ends of a new board, on which the services' rows are published: its writer, and a reader for
//! each seat.
ghost use Rattle.std.specs.Prelude.{◌≡◌, ◌≤◌, ◌⊎◌, ◌∷◌, [], IfOk, IfErr, length};
ghost use Rattle.tree_core.specs.Machine.{Machine};
ghost use Rattle.tree_core.specs.StandsFor.{StandsFor};
ghost use Rattle.locked_services.specs.Shots.{shot_of};
ghost use Rattle.office.specs.Opening.{AreReaders};
ghost use Rattle.office.specs.declared.new_office.OpenFault.TheVariants as fault;

use crate::new_office::OpenFault;
use channel_names::Channels;
use s6_events::NoMemory;
use status_board::{BoardReader, BoardWriter, NewBoard, StandingRows};
use std::alloc::Global;
use std::sync::Wait;
use tree_core::Tree;

// The first rows of a run of this tree. `NoMemory` where memory is refused.
fn first_rows(alloc: Global, tree: &Tree<Global>) -> Result<StandingRows<Global>, NoMemory>
    ensures { IfOk result (λ rows. (m : Machine) → StandsFor tree.now m → rows ≡ shot_of m) }
{
    // Rows are published with the number of the step that they show.
    let at = tree.steps();
    let mut rows = Vec::new(alloc);
    tree.fill_rows(&mut rows)?;
    Ok(StandingRows::new(at, rows))
}

// Makes `count` readers of this board. `Board` where it gives no reader, `NoMemory` where memory
// for their list is refused.
#[tactic(auto, using(crate::proofs::Readers::readers_more))]
fn readers_of<C: Channels, R: Wait + Drop>(
    alloc: Global,
    writer: &BoardWriter<C, R>,
    count: usize,
) -> Result<Vec<BoardReader<C>>, OpenFault>
    ensures each { IfOk result (λ readers. AreReaders writer.now readers.items) }
    ensures count { IfOk result (λ readers. length readers.items ≡ count) }
    ensures fault { IfErr result (λ e. (e ≡ fault.NoMemory) ⊎ (e ≡ fault.Board)) }
{
    let mut readers = Vec::new(alloc);
    for _ in 0..count {
        let Ok(reader) = writer.reader() else {
            return Err(OpenFault::Board);
        };
        if readers.push(reader).is_err() {
            return Err(OpenFault::NoMemory);
        }
    }
    Ok(readers)
}

/// Opens the board, to which `C` gives its name, with the first shot of this tree as all that was
/// published. Returns its writer and `readers` readers. `NoMemory` where memory is refused, `Board`
/// where the board gives no reader.
pub fn board_ends<C: Channels, R: Wait + Drop>(
    alloc: Global,
    rt: R,
    board: NewBoard,
    tree: &Tree<Global>,
    readers: usize,
) -> Result<(BoardWriter<C, R>, Vec<BoardReader<C>>), OpenFault>
    requires board { board ≡ C.board }
    requires readers { (1 ≤ readers) × (readers ≤ 16) }
    ensures first { IfOk result (λ ends. (m : Machine) → StandsFor tree.now m
        → ends.0 ≡ shot_of m ∷ []) }
    ensures readers { IfOk result (λ ends. AreReaders ends.0 ends.1.items) }
    ensures count { IfOk result (λ ends. length ends.1.items ≡ readers) }
    ensures fault { IfErr result (λ e. (e ≡ fault.NoMemory) ⊎ (e ≡ fault.Board)) }
{
    let Ok(first) = first_rows(alloc, tree) else {
        return Err(OpenFault::NoMemory);
    };
    let Ok(writer) = board.open::<C, R, Global>(alloc, rt, readers, first) else {
        return Err(OpenFault::NoMemory);
    };
    let all = readers_of(alloc, &writer, readers)?;
    Ok((writer, all))
}
