//! What no clause says: that calls succeed with ample memory, and that each growth may be refused;
//! and the worked values of a tally and of lists, as definitions and code have them.
use death_tally::{DeathList, Tally, permafails};
use linked_list_allocator::LocalHeap;
use s6_events::{At, Exit};
use std::alloc::{Allocator, Global};
use std::process::Abort;

fn at(rt: &impl Abort, millis: u64) -> At {
    At::new(millis).expect(rt, "a moment")
}

// A tally of so many deaths at most, after five deaths with the code 1, each 1100 ms after the one
// before.
fn after_five(rt: &impl Abort, alloc: Global, most: u16) -> Tally<Global> {
    let mut tally = Tally::new(alloc, most).expect(rt, "memory");
    tally.add(at(rt, 100), Exit::Code(1));
    tally.add(at(rt, 1200), Exit::Code(1));
    tally.add(at(rt, 2300), Exit::Code(1));
    tally.add(at(rt, 3400), Exit::Code(1));
    tally.add(at(rt, 4500), Exit::Code(1));
    tally
}

// The moments of these deaths, summed.
fn sum_of(deaths: &[(At, Exit)]) -> u64 {
    let mut sum = 0u64;
    for (at, _) in deaths {
        sum = sum.saturating_add(at.millis());
    }
    sum
}

// Of the five a tally of so many at most has so many left, and this is the sum of their moments.
fn wants_left(rt: &impl Abort, alloc: Global, most: u16, sum: u64, count: usize) {
    let tally = after_five(rt, alloc, most);
    let deaths = tally.list(alloc).expect(rt, "memory");
    assert_eq!(rt; (sum_of(&deaths), deaths.len()), (sum, count));
}

#[test]
fn a_tally_forgets_the_oldest(rt: HostRuntime) {
    let alloc = rt.alloc();
    wants_left(&rt, alloc, 0, 0, 0);
    wants_left(&rt, alloc, 1, 4500, 1);
    wants_left(&rt, alloc, 3, 10_200, 3);
    wants_left(&rt, alloc, 9, 11_500, 5);
}

// A tally of the three deaths at 2300, 3400 and 4500, and the allocator of the lists.
#[derive(Drop)]
struct Three {
    alloc: Global,
    tally: Tally<Global>,
}

impl Three {
    // What a permanent failure test of this list and these numbers says at 4500.
    fn wants(&self, rt: &impl Abort, text: &str, seconds: u32, count: u32, answer: bool) {
        let list = list_of(rt, self.alloc, text).expect(rt, "a list");
        let found = permafails(&self.tally, at(rt, 4500), seconds, count, &list);
        assert_eq!(rt; found, answer, "{text}");
    }
}

// The list of this text, where it is one.
fn list_of(rt: &impl Abort, alloc: Global, text: &str) -> Option<DeathList> {
    DeathList::parse(alloc, text.as_bytes()).expect(rt, "memory")
}

#[test]
fn enough_deaths_in_time_are_a_permanent_failure(rt: HostRuntime) {
    let alloc = rt.alloc();
    let tally = after_five(&rt, alloc, 3);
    let three = Three { alloc, tally };
    three.wants(&rt, "1", 60, 4, false);
    three.wants(&rt, "1-2", 60, 3, true);
    three.wants(&rt, "0,2-255,SIGTERM", 60, 1, false);
    three.wants(&rt, "1", 60, 0, true);
    three.wants(&rt, "TERM", 60, 0, true);
    three.wants(&rt, "7,001", 1, 1, true);
    three.wants(&rt, "1", 1, 2, false);
    three.wants(&rt, "1", 2, 2, true);
    three.wants(&rt, "1", 0, 1, true);
}

// What is no list, with a bar between two: 33 items among them.
const NO_LISTS: &str =
    "|,|1,|256|2-1|1-2-3|-1|1-|sigterm|SIG11|1 2|1,1,1,1,1,1,1,1,1,1,1,1,1,1,1,1,1,1,1,1,1,1,1,1,1,1,1,1,1,1,1,1,1";

#[test]
fn other_texts_are_no_lists(rt: HostRuntime) {
    for text in NO_LISTS.split('|') {
        wants_no_list(&rt, rt.alloc(), text);
    }
}

fn wants_no_list(rt: &impl Abort, alloc: Global, text: &str) {
    let is_list = list_of(rt, alloc, text).is_some();
    assert!(rt; !is_list, "{text}");
}

// Whether a tally can be made, and its list.
fn make_tally<A: Allocator + Copy>(alloc: A) -> [bool; 2] {
    match Tally::new(alloc, 4) {
        Ok(tally) => [true, is_listed(alloc, tally)],
        Err(_) => [false, false],
    }
}

// Whether the tally gives the list of one death.
fn is_listed<A: Allocator + Copy>(alloc: A, tally: Tally<A>) -> bool {
    let mut tally = tally;
    tally.add(At::zero(), Exit::Killed(9));
    tally.list(alloc).is_ok()
}

// On a heap of so many bytes a list is read, a tally is made, and its list; or each of these is
// refused.
fn wants_on_heap(rt: &impl Abort, alloc: Global, bytes: usize, wanted: [bool; 3]) {
    let heap = LocalHeap::new(alloc, bytes).expect(rt, "memory");
    let is_read = DeathList::parse(&heap, b"1,2,3").is_ok();
    let [is_made, is_listed] = make_tally(&heap);
    assert_eq!(rt; [is_read, is_made, is_listed], wanted);
}

#[test]
fn each_growth_may_be_refused(rt: HostRuntime) {
    wants_on_heap(&rt, rt.alloc(), 16, [false, false, false]);
    wants_on_heap(&rt, rt.alloc(), 112, [true, true, false]);
    wants_on_heap(&rt, rt.alloc(), 65_536, [true, true, true]);
}
