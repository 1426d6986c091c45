//! A queue with a limit, for what is on its way between a run and the thread of a lane.
ghost use Rattle.std.specs.Prelude.{◌≡◌, ◌↔◌, IsTrue, ◌≤◌, ◌<◌, ◌++◌, ◌∷◌, [], Err, length, OnOk, OnErr, IfSome, IfNone};
ghost use Rattle.std.specs.VecDeque.{deque_len, deque_capacity};
ghost use Rattle.order_lanes.specs.declared.backend.AskFault.TheVariants.{Busy};

use order_lanes::AskFault;
use std::alloc::Global;
use std::collections::VecDeque;

/// A queue of at most `limit` items, the oldest first. Memory is taken as they come.
#[derive(Drop)]
pub(crate) struct LinkQueue<T> {
    items: VecDeque<T, Global>,
    limit: usize,
}

impl<T: Drop> LinkQueue<T> {
    /// An empty queue.
    pub fn new(alloc: Global, limit: usize) -> LinkQueue<T>
        ensures empty { result.items.items ≡ [] }
        ensures limit { result.limit ≡ limit }
    {
        LinkQueue {
            items: VecDeque::new(alloc),
            limit,
        }
    }

    /// Whether there is no place for one more.
    pub fn is_full(&self) -> bool
        ensures { IsTrue result ↔ (self.now.limit ≤ deque_len self.now.items) }
    {
        self.items.len() >= self.limit
    }

    /// Makes room for one more item. `Busy` where the queue is full, `NoMemory` where memory is
    /// refused; the items stay as they were.
    pub fn make_room(&mut self) -> Result<(), AskFault>
        ensures items { self.new.items.items ≡ self.old.items.items }
        ensures limit { self.new.limit ≡ self.old.limit }
        ensures room { OnOk result (deque_len self.new.items < deque_capacity self.new.items) }
        ensures below { OnOk result (deque_len self.old.items < self.old.limit) }
        ensures full { result ≡ Err Busy → self.old.limit ≤ deque_len self.old.items }
    {
        if self.is_full() {
            return Err(AskFault::Busy);
        }
        match self.items.reserve(1) {
            Ok(()) => Ok(()),
            Err(_) => Err(AskFault::NoMemory),
        }
    }

    /// Adds an item at the end, after `make_room` made room for it.
    pub fn add(&mut self, item: T)
        requires { deque_len self.old.items < deque_capacity self.old.items }
        ensures items { self.new.items.items ≡ self.old.items.items ++ item ∷ [] }
        ensures limit { self.new.limit ≡ self.old.limit }
    {
        self.items.push_back_reserved(item);
    }

    /// Takes the oldest item; None where the queue is empty.
    pub fn pop(&mut self) -> Option<T>
        ensures first { IfSome result (λ x. self.old.items.items ≡ x ∷ self.new.items.items) }
        ensures none { IfNone result (self.old.items.items ≡ []) }
        ensures limit { self.new.limit ≡ self.old.limit }
    {
        self.items.pop_front()
    }
}
