//! Tests of the board.
ghost use Rattle.std.specs.Prelude.{◌≡◌, ◌<◌, ◌^◌};

use arrayvec::ArrayVec;
use channel_names::Channels;
use linked_list_allocator::LocalHeap;
use s6_events::NoMemory;
use status_board::{BoardReader, BoardWriter, NewBoard, SERVICE_LIMIT, Shot, StandingRows};
use std::alloc::{Allocator, Global};
use std::marker::Brand;
use std::process::Abort;
use std::sync::Wait;
use std::sync::atomic::{AtomicU64, Ordering};
use std::thread;
use std::thread::Threads;
use supervise_core::Row;

/// How many shots the writer publishes beside the readers.
const SHOTS: u64 = 1_000;

// A shot after so many steps, with as many rows as there can be. Each has the number of steps as
// its age, so that a row of another step is seen.
fn shot(at: u64) -> Shot {
    let row = Row {
        up_down_for: Some(at),
        ..Row::default()
    };
    Shot {
        at,
        rows: ArrayVec::from([row; SERVICE_LIMIT]),
    }
}

// A shot after so many steps, with one row.
fn small_shot(at: u64) -> Shot {
    let mut rows = ArrayVec::new();
    rows.push(Row {
        up_down_for: Some(at),
        ..Row::default()
    });
    Shot { at, rows }
}

// After how many steps a shot was taken, and how many rows it has; None where there is none, and
// where a row is of another step.
fn steps_and_rows_of(shot: Option<Shot>) -> Option<(u64, usize)> {
    let shot = shot?;
    let rows = shot.rows.as_slice();
    if rows.iter().all(|row| row.up_down_for == Some(shot.at)) {
        Some((shot.at, rows.len()))
    } else {
        None
    }
}

// After how many steps a shot of as many rows as there can be was taken.
fn steps_of(shot: Option<Shot>) -> Option<u64> {
    match steps_and_rows_of(shot) {
        Some((steps, SERVICE_LIMIT)) => Some(steps),
        _ => None,
    }
}

// A board in a run whose board it is, with a full shot after so many steps.
fn open_board<'a, C: Channels, R: Wait + Abort, A: Allocator + Copy>(
    rt: &'a R,
    alloc: A,
    board: NewBoard,
    readers: usize,
    at: u64,
) -> BoardWriter<C, &'a R, A>
    requires board { board ≡ C.board }
    requires readers { (0 < readers) × (readers < 2 ^ 32) }
{
    let first = StandingRows::of(alloc, &shot(at)).expect(rt, "no memory");
    let opened = board.open::<C, &R, A>(alloc, rt, readers, first);
    opened.ok().expect(rt, "no memory")
}

// What is read next was taken after so many steps, and has so many rows.
fn wants_shot<C: Channels, A: Allocator, R: Abort>(
    rt: &R,
    reader: &mut BoardReader<C, A>,
    at: u64,
    rows: usize,
) {
    let found = steps_and_rows_of(reader.read());
    assert_eq!(rt; found, Some((at, rows)));
}

// The reader is told of what was published, and reads it.
fn tell_and_want<C: Channels, W: Wait + Drop, A: Allocator + Copy, R: Abort>(
    rt: &R,
    writer: &BoardWriter<C, W, A>,
    reader: &mut BoardReader<C, A>,
    at: u64,
    rows: usize,
) {
    reader.learn(writer.tell());
    wants_shot(rt, reader, at, rows);
}

#[test]
fn a_reader_sees_what_it_was_told_of(rt: HostRuntime) {
    tell_and_read::<Brand, _>(&rt, rt.alloc(), NewBoard::new())
}

// Shots of one row and of as many as there can be are published in turn, and each is read once it
// was told of.
fn tell_and_read<C: Channels, R: Wait + Abort>(rt: &R, alloc: Global, board: NewBoard)
    requires { board ≡ C.board }
{
    let mut writer = open_board::<C, R, Global>(rt, alloc, board, 1, 0);
    let mut reader = writer.reader().expect(rt, "no reader");
    wants_shot(rt, &mut reader, 0, SERVICE_LIMIT);
    tell_of_four(rt, &mut writer, &mut reader);
    drop(writer);
    assert!(rt; reader.read().is_none());
}

// Four shots are published. The reader has the only place for one.
fn tell_of_four<C: Channels, W: Wait + Drop, R: Abort>(
    rt: &R,
    writer: &mut BoardWriter<C, W>,
    reader: &mut BoardReader<C>,
) {
    tell_of_small(rt, writer, reader, 1);
    tell_of_full(rt, writer, reader, 2);
    tell_of_small(rt, writer, reader, 3);
    tell_of_full(rt, writer, reader, 4);
    assert!(rt; writer.reader().is_err());
}

// A shot with one row is published.
fn tell_of_small<C: Channels, W: Wait + Drop, R: Abort>(
    rt: &R,
    writer: &mut BoardWriter<C, W>,
    reader: &mut BoardReader<C>,
    at: u64,
) {
    let next = small_shot(at);
    tell_of_one(rt, writer, reader, &next, 1);
}

// A full shot is published.
fn tell_of_full<C: Channels, W: Wait + Drop, R: Abort>(
    rt: &R,
    writer: &mut BoardWriter<C, W>,
    reader: &mut BoardReader<C>,
    at: u64,
) {
    let next = shot(at);
    tell_of_one(rt, writer, reader, &next, SERVICE_LIMIT);
}

// A shot is published, of which the reader is told. It reads it as often as it reads.
fn tell_of_one<C: Channels, W: Wait + Drop, R: Abort>(
    rt: &R,
    writer: &mut BoardWriter<C, W>,
    reader: &mut BoardReader<C>,
    next: &Shot,
    rows: usize,
) {
    writer.publish(next).expect(rt, "no memory");
    tell_and_want(rt, writer, reader, next.at, rows);
    wants_shot(rt, reader, next.at, rows);
}

// Takes all that the heap has free, but for so many bytes.
fn fill<'h, R: Abort>(rt: &R, heap: &'h LocalHeap, left: usize) -> Vec<u8, &'h LocalHeap> {
    let size = heap.free().saturating_sub(left);
    Vec::with_capacity(heap, size).expect(rt, "no memory")
}

// A heap of 400,000 bytes.
fn new_heap<R: Abort>(rt: &R, alloc: Global) -> LocalHeap {
    LocalHeap::new(alloc, 400_000).expect(rt, "no memory")
}

#[test]
fn a_refused_publish_leaves_the_board_as_it_was(rt: HostRuntime) {
    let heap = new_heap(&rt, rt.alloc());
    publish_without_room::<Brand, _>(&rt, &heap, NewBoard::new());
}

#[test]
fn a_board_that_is_refused_comes_back(rt: HostRuntime) {
    let heap = new_heap(&rt, rt.alloc());
    open_without_room::<Brand, _>(&rt, &heap, NewBoard::new());
}

// Opens a board while the heap has no room for it: the board that comes back.
fn refuse_to_open<C: Channels, R: Wait + Abort>(
    rt: &R,
    heap: &LocalHeap,
    board: NewBoard,
) -> NewBoard
    requires { board ≡ C.board }
    ensures { result ≡ board }
{
    let first = StandingRows::of(heap, &shot(0)).expect(rt, "no memory");
    let _room = fill(rt, heap, 128);
    let opened = board.open::<C, &R, &LocalHeap>(heap, rt, 1, first);
    let (board, refused) = opened.err().expect(rt, "a board without room");
    assert_eq!(rt; refused, NoMemory);
    board
}

// Opens a board while the heap has no room for it, and again once it has.
fn open_without_room<C: Channels, R: Wait + Abort>(rt: &R, heap: &LocalHeap, board: NewBoard)
    requires { board ≡ C.board }
{
    let board = refuse_to_open::<C, R>(rt, heap, board);
    let writer = open_board::<C, R, &LocalHeap>(rt, heap, board, 1, 7);
    wants_first(rt, &writer, 7);
}

// A new reader reads a full shot after so many steps.
fn wants_first<C: Channels, W: Wait + Drop, A: Allocator + Copy, R: Abort>(
    rt: &R,
    writer: &BoardWriter<C, W, A>,
    at: u64,
) {
    let mut reader = writer.reader().expect(rt, "no reader");
    wants_shot(rt, &mut reader, at, SERVICE_LIMIT);
}

// Publishes while the heap has no room for one more shot, and again once it has.
fn publish_without_room<C: Channels, R: Wait + Abort>(rt: &R, heap: &LocalHeap, board: NewBoard)
    requires { board ≡ C.board }
{
    let mut writer = open_board::<C, R, &LocalHeap>(rt, heap, board, 1, 0);
    publish_at_last(rt, heap, &mut writer);
}

// What a reader sees then, and afterwards.
fn publish_at_last<'h, C: Channels, W: Wait + Drop, R: Abort>(
    rt: &R,
    heap: &'h LocalHeap,
    writer: &mut BoardWriter<C, W, &'h LocalHeap>,
) {
    let mut reader = writer.reader().expect(rt, "no reader");
    refuse_to_publish(rt, heap, writer, &mut reader);
    wants_published(rt, writer, None);
    tell_and_want(rt, writer, &mut reader, 1, SERVICE_LIMIT);
}

// Publishes a full shot after one step, with this fault.
fn wants_published<C: Channels, W: Wait + Drop, A: Allocator + Copy, R: Abort>(
    rt: &R,
    writer: &mut BoardWriter<C, W, A>,
    wanted: Option<NoMemory>,
) {
    let refused = writer.publish(&shot(1)).err();
    assert_eq!(rt; refused, wanted);
}

// The heap has no room for one more shot: a reader sees the one before, while there is none.
fn refuse_to_publish<'h, C: Channels, W: Wait + Drop, R: Abort>(
    rt: &R,
    heap: &'h LocalHeap,
    writer: &mut BoardWriter<C, W, &'h LocalHeap>,
    reader: &mut BoardReader<C, &'h LocalHeap>,
) {
    let _room = fill(rt, heap, 4096);
    wants_published(rt, writer, Some(NoMemory));
    tell_and_want(rt, writer, reader, 0, SERVICE_LIMIT);
}

#[test]
fn readers_beside_a_writer_never_see_an_older_shot(rt: HostRuntime) {
    publish_and_read::<Brand, _>(&rt, rt.alloc(), NewBoard::new())
}

// Three readers read, each in a thread of its own, while 1,000 shots are published in a fourth.
// Then they are told of the last.
fn publish_and_read<C: Channels + Send + Sync, R: Threads + Wait + Abort + Sync>(
    rt: &R,
    alloc: Global,
    board: NewBoard,
)
    requires { board ≡ C.board }
{
    let mut writer = open_board::<C, R, Global>(rt, alloc, board, 3, 0);
    read_and_tell(rt, alloc, &mut writer);
}

// The same with the board's writer.
fn read_and_tell<C: Channels + Send + Sync, R: Threads + Wait + Abort + Sync>(
    rt: &R,
    alloc: Global,
    writer: &mut BoardWriter<C, &R>,
) {
    let mut readers = Vec::new(alloc);
    for _ in 0..3 {
        add_reader(rt, writer, &mut readers);
    }
    read_beside(rt, writer, &mut readers);
    tell_each(rt, writer, &mut readers);
}

// Each reader sees the last shot once it is told of it.
fn tell_each<C: Channels, W: Wait + Drop, R: Abort>(
    rt: &R,
    writer: &BoardWriter<C, W>,
    readers: &mut [BoardReader<C>],
) {
    for reader in readers.iter_mut() {
        tell_and_want(rt, writer, reader, SHOTS, SERVICE_LIMIT);
    }
}

// Adds a reader.
fn add_reader<C: Channels, W: Wait + Drop, R: Abort>(
    rt: &R,
    writer: &BoardWriter<C, W>,
    readers: &mut Vec<BoardReader<C>>,
) {
    let reader = writer.reader().expect(rt, "no reader");
    let added = readers.push(reader).is_ok();
    assert!(rt; added);
}

// The readers read beside the writer, and none sees an older shot.
fn read_beside<C: Channels + Send + Sync, R: Threads + Wait + Abort + Sync>(
    rt: &R,
    writer: &mut BoardWriter<C, &R>,
    readers: &mut [BoardReader<C>],
) {
    let done = AtomicU64::new(0);
    // Where no thread can be made, the writer publishes before the readers read.
    let (in_order, published) = thread::join(
        rt,
        || watch_all(rt, readers, &done),
        || publish_all(writer, &done),
    );
    assert!(rt; published);
    assert!(rt; in_order, "an older shot");
}

// Publishes the shots 1 to 1,000, and says so.
fn publish_all<C: Channels, R: Wait + Drop>(
    writer: &mut BoardWriter<C, R>,
    done: &AtomicU64,
) -> bool {
    let mut published = true;
    for at in 1..SHOTS + 1 {
        published = writer.publish(&shot(at)).is_ok() && published;
    }
    done.store(1, Ordering::SeqCst);
    published
}

// Each reader reads in a thread of its own: whether none saw an older shot.
fn watch_all<C: Channels + Send + Sync, R: Threads + Wait + Sync>(
    rt: &R,
    readers: &mut [BoardReader<C>],
    done: &AtomicU64,
) -> bool {
    let faults = AtomicU64::new(0);
    let watch_one = |_: usize, reader: &mut BoardReader<C>| watch(rt, reader, done, &faults);
    thread::for_each_mut(rt, readers, 3, &watch_one);
    faults.load(Ordering::SeqCst) == 0
}

// Reads until all is published. A fault is to see no shot, one not whole, or an older one than
// before.
fn watch<C: Channels>(
    rt: &impl Wait,
    reader: &mut BoardReader<C>,
    done: &AtomicU64,
    faults: &AtomicU64,
) {
    if !reads_in_order(rt, reader, done) {
        faults.fetch_add(1, Ordering::SeqCst);
    }
}

// Whether each shot until all is published is whole, and none is older than one before.
fn reads_in_order<C: Channels>(
    rt: &impl Wait,
    reader: &mut BoardReader<C>,
    done: &AtomicU64,
) -> bool {
    let mut seen = 0;
    for _ in rt.forever() {
        if done.load(Ordering::SeqCst) == 1 {
            break;
        }
        match steps_of(reader.read()) {
            Some(steps) if steps >= seen => seen = steps,
            _ => return false,
        }
    }
    true
}
