//! How desks are taken out of their locks, and put back.
ghost use Rattle.std.specs.Prelude.{◌≡◌, ◌≤◌, [], length, vec_capacity};
ghost use Rattle.office.specs.Changed.{ComeOf};

use order_lanes::{Backend, Desk, Lanes};
use std::sync::Mutex;

/// Changes each item. Returns two lists: first `items`, now empty, and then `room` with the changed
/// items, in the same order. `room` is empty before, and has room for them.
fn change_each<T, U, F: Fn(T) -> U>(items: Vec<T>, room: Vec<U>, change: F) -> (Vec<T>, Vec<U>)
    requires callable { F.IsAlwaysCallable change }
    requires empty { room.items ≡ [] }
    requires fits { length items.items ≤ vec_capacity room }
    ensures left { result.0.items ≡ [] }
    ensures left_room { vec_capacity result.0 ≡ vec_capacity items }
    ensures order { ComeOf (F.post change) items.items result.1.items }
    ensures each { length result.1.items ≡ length items.items }
    ensures room { vec_capacity result.1 ≡ vec_capacity room }
{
    let mut items = items;
    let mut changed = room;
    for _ in 0..items.len() {
        let item = items.remove(0);
        changed.push_reserved(change(item));
    }
    (items, changed)
}

/// Takes desks out of their locks. Returns two lists: first `locked`, now empty, and then `room`
/// with the desks, in the same order. `room` is empty before, and has room for them. No lock is
/// taken, since nobody else has the desks.
pub fn unlock_all<B: Backend, L: Lanes>(
    locked: Vec<Mutex<Desk<B, L>>>,
    room: Vec<Desk<B, L>>,
) -> (Vec<Mutex<Desk<B, L>>>, Vec<Desk<B, L>>)
    requires empty { room.items ≡ [] }
    requires fits { length locked.items ≤ vec_capacity room }
    ensures left { result.0.items ≡ [] }
    ensures left_room { vec_capacity result.0 ≡ vec_capacity locked }
    ensures each { length result.1.items ≡ length locked.items }
    ensures room { vec_capacity result.1 ≡ vec_capacity room }
{
    change_each(locked, room, |desk| desk.into_inner())
}

/// Puts each desk behind a lock of its own. Returns two lists: first `room` with the locked desks,
/// in the same order, and then `desks`, now empty. `room` is empty before, and has room for them.
pub fn lock_all<B: Backend, L: Lanes>(
    desks: Vec<Desk<B, L>>,
    room: Vec<Mutex<Desk<B, L>>>,
) -> (Vec<Mutex<Desk<B, L>>>, Vec<Desk<B, L>>)
    requires empty { room.items ≡ [] }
    requires fits { length desks.items ≤ vec_capacity room }
    ensures left { result.1.items ≡ [] }
    ensures left_room { vec_capacity result.1 ≡ vec_capacity desks }
    ensures each { length result.0.items ≡ length desks.items }
{
    let (desks, locked) = change_each(desks, room, |desk| Mutex::new(desk));
    (locked, desks)
}
