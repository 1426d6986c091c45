//! Event directories by their public calls: matches, refusals, plans and refused memory.
ghost use Rattle.std.specs.Prelude.{◌≡◌, ◌≤◌, ◌<◌, ◌+◌, ◌^◌, [], nat_le, length, sum};

use crate::shared::{TrialCounts, letter, new_heap};
use event_directory::{
    Directories, Directory, DirectoryAnswer, DirectoryChange, DirectoryFault, Finds, Hit, Message,
    Pattern, Source, State,
};
use linked_list_allocator::LocalHeap;
use s6_events::{Letter, Mark, Moment, Name, NoMemory, Sid, SubId};
use std::alloc::{Allocator, Global};
use std::process::Abort;

// Finds a match in a text of at least so many letters.
#[derive(Clone, Copy)]
struct AtLeast {
    count: usize,
}

impl Finds for AtLeast {
    ghost use Rattle.std.specs.Prelude.{◌∷◌, []};

    ghost source = { λ p. p.count ∷ [] };

    ghost test = { λ source letters. nat_le (sum source) (length letters) };

    fn finds(&mut self, letters: &[Letter]) -> Result<bool, NoMemory> {
        Ok(self.count <= letters.len())
    }
}

// Subscribes to a text of at least so many letters.
fn subscribe<A: Allocator + Copy, R: Abort>(
    rt: &R,
    directory: &mut Directory<AtLeast, A>,
    count: usize,
    repeats: bool,
)
    requires { directory.old.standing ≡ [] }
{
    let subscribed = directory.subscribe(SubId(1), AtLeast { count }, repeats);
    assert!(rt; subscribed.is_ok());
}

// Sends so many letters: a to z, again and again.
fn send_many<R: Abort>(rt: &R, directory: &mut Directory<AtLeast, Global>, sent: u32) {
    for n in 0..sent {
        let next = letter(rt, b'a' + (n % 26) as u8);
        let answered = directory.send(next);
        assert!(rt; answered.is_ok());
    }
}

fn are_letters(found: &[Letter], text: &str) -> bool {
    for (place, byte) in text.bytes().enumerate() {
        match found.get(place) {
            Some(letter) if letter.byte() == byte => {}
            _ => return false,
        }
    }
    found.len() == text.len()
}

// The subscription stands so, and has heard these letters.
fn wants_heard<A: Allocator + Copy, R: Abort>(
    rt: &R,
    directory: &Directory<AtLeast, A>,
    state: State,
    letters: &str,
) {
    let view = directory.list(SubId(1)).expect(rt, "a subscription");
    let is_heard = are_letters(view.letters, letters);
    assert!(rt; is_heard && view.state == state, "{letters} and {state:?}");
}

// From how many letters on a text matches, whether again and again, how many letters are sent; the
// state and the list then.
type Sent = (usize, bool, u32, State, &'static str);

fn send_and_hear<R: Abort>(rt: &R, directory: &mut Directory<AtLeast, Global>, row: &Sent)
    requires { directory.old.standing ≡ [] }
{
    let (count, repeats, sent, state, letters) = row;
    subscribe(rt, directory, *count, *repeats);
    send_many(rt, directory, *sent);
    wants_heard(rt, directory, *state, *letters);
}

#[test]
fn hears_the_last_letter_of_each_least_match(rt: HostRuntime) {
    let rows: &[Sent] = &[
        (1, false, 0, State::Live, ""),
        (1, false, 3, State::Done, "a"),
        (1, true, 3, State::Live, "abc"),
        (2, false, 5, State::Done, "b"),
        (2, true, 5, State::Live, "bd"),
        (6, true, 5, State::Live, ""),
        (1024, false, 1024, State::Done, "j"),
        (1025, false, 1024, State::Live, ""),
        (1025, false, 1025, State::Overlong, ""),
        (1025, true, 1030, State::Overlong, ""),
    ];
    for row in rows {
        send_and_hear(&rt, &mut Directory::new(rt.alloc()), row);
    }
}

// The step of this letter is prepared and made; whether it is heard by the subscription 7.
fn wants_hit<R: Abort>(
    rt: &R,
    directory: &mut Directory<Pattern, Global>,
    letter: Letter,
    is_heard: bool,
) {
    let plan = directory.prepare(&[letter]).expect(rt, "memory");
    let hits = directory.commit(plan);
    wants_hits(rt, hits[0].as_slice(), letter, is_heard);
}

fn wants_hits<R: Abort>(rt: &R, hits: &[(SubId, Hit)], letter: Letter, is_heard: bool) {
    let wanted = [(SubId(7), Hit::Matched(letter))];
    assert_eq!(rt; hits == wanted.as_slice(), is_heard);
}

// The step of the first letter of a text, which is heard where the text ends with a plus.
fn wants_sent<R: Abort>(rt: &R, directory: &mut Directory<Pattern, Global>, sent: &str) {
    let byte = sent.bytes().next().expect(rt, "a letter");
    wants_hit(rt, directory, letter(rt, byte), sent.ends_with('+'));
}

// A step with no letter is made ready, and the pattern joins.
fn join<R: Abort>(rt: &R, directory: &mut Directory<Pattern, Global>, pattern: Pattern)
    requires { directory.old.standing ≡ [] }
{
    assert_eq!(rt; pattern.text(), "u.*u");
    directory.prepare(&[]).expect(rt, "memory");
    directory.join(SubId(7), pattern, true);
}

#[test]
fn a_pattern_matches_again_after_its_match(rt: HostRuntime) {
    let pattern = Pattern::build(rt.alloc(), "u.*u").expect(&rt, "a pattern");
    let mut directory = Directory::new(rt.alloc());
    join(&rt, &mut directory, pattern);
    // Letters, each with a plus behind it where it is heard: of two starts the second is.
    for sent in "u d D u+ d D u d D u+".split(' ') {
        wants_sent(&rt, &mut directory, sent);
    }
    directory.unsubscribe(SubId(7));
    assert!(rt; directory.list(SubId(7)).is_none());
}

// Hears a letter, and then two of one step, as far as memory goes; whether each was answered.
fn are_answered<A: Allocator + Copy>(
    directory: &mut Directory<AtLeast, A>,
    letter: Letter,
) -> Result<bool, NoMemory>
    requires { directory.old.standing ≡ [] }
{
    let subscribed = directory.subscribe(SubId(1), AtLeast { count: 1 }, true);
    if subscribed.is_err() {
        return Err(NoMemory);
    }
    let first = directory.send(letter)?.len();
    let plan = directory.prepare(&[letter, letter])?;
    let others = directory.commit(plan).len();
    Ok(first == 1 && others == 2)
}

// On heaps of a growing size each growth is the first one refused.
#[test]
fn a_refused_growth_is_told(rt: HostRuntime) {
    let a = letter(&rt, b'a');
    let mut counts = TrialCounts::new();
    for step in 0..120usize {
        let heap = new_heap(&rt, rt.alloc(), 16 * step);
        counts.add(&rt, are_answered(&mut Directory::new(&heap), a));
    }
    counts.wants_more_than(&rt, 4);
}

// Takes all of the heap that there is.
fn take_all<'h, R: Abort>(
    rt: &R,
    alloc: Global,
    heap: &'h LocalHeap,
) -> Vec<Vec<u8, &'h LocalHeap>, Global> {
    let mut room: Vec<Vec<u8, &'h LocalHeap>, Global> = Vec::new(alloc);
    let mut size = 8_192usize;
    for _ in 0..400usize {
        match Vec::with_capacity(heap, size) {
            Ok(taken) => room.push(taken).ok().expect(rt, "memory"),
            Err(_) => size /= 2,
        }
        if size < 8 {
            break;
        }
    }
    room
}

// A letter, or the plan of another step, for which the heap has no room.
fn refuse<'h, R: Abort>(
    rt: &R,
    alloc: Global,
    heap: &'h LocalHeap,
    directory: &mut Directory<AtLeast, &'h LocalHeap>,
    sends: bool,
) {
    let _room = take_all(rt, alloc, heap);
    let b = letter(rt, b'b');
    if sends {
        assert!(rt; directory.send(b).is_err());
    } else {
        assert!(rt; directory.prepare(&[b]).is_err());
    }
}

// A plan of two letters, a letter or another plan that is refused, and then a commit of the plan:
// it hears its own letters.
fn plan_and_refuse<'h, R: Abort>(
    rt: &R,
    alloc: Global,
    heap: &'h LocalHeap,
    directory: &mut Directory<AtLeast, &'h LocalHeap>,
    sends: bool,
)
    requires { directory.old.standing ≡ [] }
{
    subscribe(rt, directory, 1, true);
    let a = letter(rt, b'a');
    let plan = directory.prepare(&[a, a]).expect(rt, "memory");
    refuse(rt, alloc, heap, directory, sends);
    let count = directory.commit(plan).len();
    assert_eq!(rt; count, 2);
    wants_heard(rt, directory, State::Live, "aa");
}

#[test]
fn a_refused_letter_changes_no_plan(rt: HostRuntime) {
    let heap = new_heap(&rt, rt.alloc(), 16_384);
    for sends in [true, false] {
        plan_and_refuse(&rt, rt.alloc(), &heap, &mut Directory::new(&heap), sends);
    }
}

// A plan is made, a letter is sent, and then the plan is committed.
fn send_over_a_plan<R: Abort>(rt: &R, directory: &mut Directory<AtLeast, Global>) {
    let a = letter(rt, b'a');
    let older = directory.prepare(&[a, a]).expect(rt, "memory");
    let sent = directory.send(letter(rt, b'b')).expect(rt, "memory").len();
    directory.commit(older);
    assert_eq!(rt; sent, 1);
}

// Two plans are made, and committed in the other order.
fn plan_over_a_plan<R: Abort>(rt: &R, directory: &mut Directory<AtLeast, Global>) {
    let a = letter(rt, b'a');
    let first = directory.prepare(&[a]).expect(rt, "memory");
    let second = directory.prepare(&[a, a]).expect(rt, "memory");
    directory.commit(second);
    directory.commit(first);
}

// Once a letter is sent, a plan that was made before hears nothing; nor does a plan that is
// committed when another was.
#[test]
fn a_plan_is_heard_once(rt: HostRuntime) {
    let mut directory = Directory::new(rt.alloc());
    subscribe(&rt, &mut directory, 1, true);
    send_over_a_plan(&rt, &mut directory);
    wants_heard(&rt, &directory, State::Live, "b");
    plan_over_a_plan(&rt, &mut directory);
    wants_heard(&rt, &directory, State::Live, "baa");
}

// A step, prepared and made: whether it is answered so, and gives these matches.
fn gives<A: Allocator + Copy>(
    directories: &mut Directories<AtLeast, A>,
    moments: &[Moment],
    change: &DirectoryChange<'_>,
    offered: Option<(AtLeast, bool)>,
    answer: DirectoryAnswer,
    matches: &[(SubId, Hit)],
) -> Result<bool, NoMemory>
    requires { directories.old.shown.next < 2 ^ 63 }
    ensures { directories.new.shown.next ≤ directories.old.shown.next + 1 }
{
    let plan = directories.prepare(moments, change)?;
    let is_answered = plan.answer == answer;
    let is_matched = plan.matches.as_slice() == matches;
    directories.commit(plan, offered);
    Ok(is_answered && is_matched)
}

// A step of this change alone, which gives no match. `offered` is the pattern of the subscription
// that it makes, and whether it repeats.
fn answers<A: Allocator + Copy>(
    directories: &mut Directories<AtLeast, A>,
    change: &DirectoryChange<'_>,
    offered: Option<(AtLeast, bool)>,
    answer: DirectoryAnswer,
) -> Result<bool, NoMemory>
    requires { directories.old.shown.next < 2 ^ 63 }
    ensures { directories.new.shown.next ≤ directories.old.shown.next + 1 }
{
    gives(directories, &[], change, offered, answer, &[])
}

// Whether a subscription stands so.
fn stands<A: Allocator + Copy>(
    directories: &Directories<AtLeast, A>,
    id: SubId,
    letters: &[Letter],
    state: State,
) -> bool {
    match directories.list(id) {
        Some(view) => view.letters == letters && view.state == state,
        None => false,
    }
}

// What the steps speak of.
#[derive(Drop)]
struct StepWords {
    name: Name,
    other: Name,
    three: Message,
    one: Message,
    letters: [Letter; 2],
}

impl StepWords {
    fn new<R: Abort>(rt: &R) -> StepWords {
        StepWords {
            name: Name::new(b"events").expect(rt, "a name"),
            other: Name::new(b"others").expect(rt, "a name"),
            three: Message::new(b"xyz").expect(rt, "a message"),
            one: Message::new(b"w").expect(rt, "a message"),
            letters: [letter(rt, b'y'), letter(rt, b'w')],
        }
    }
}

// One free directory is made, and not again.
fn makes<A: Allocator + Copy>(
    directories: &mut Directories<AtLeast, A>,
    name: Name,
) -> Result<bool, NoMemory>
    requires { directories.old.shown.next < 100 }
    ensures { directories.new.shown.next < 110 }
{
    let make = DirectoryChange::Make(name);
    let exists = DirectoryAnswer::Refused(DirectoryFault::Exists);
    let made = answers(directories, &make, None, DirectoryAnswer::Done)?;
    let refused = answers(directories, &make, None, exists)?;
    Ok(made && refused)
}

// Two subscriptions are made, to the free directory and to a service, and none to a directory that
// isn't there.
fn subscribes<A: Allocator + Copy>(
    directories: &mut Directories<AtLeast, A>,
    name: Name,
    other: Name,
) -> Result<bool, NoMemory>
    requires { directories.old.shown.next < 110 }
    ensures { directories.new.shown.next < 200 }
{
    let twice = Some((AtLeast { count: 2 }, true));
    let once = Some((AtLeast { count: 1 }, false));
    let free = DirectoryChange::Subscribe(Source::Directory(name));
    let service = DirectoryChange::Subscribe(Source::Service(Sid(7)));
    let unknown = DirectoryChange::Subscribe(Source::Directory(other));
    let no_such = DirectoryAnswer::Refused(DirectoryFault::NoSuch);
    let first = answers(
        directories,
        &free,
        twice,
        DirectoryAnswer::Subscribed(SubId(1)),
    )?;
    let second = answers(
        directories,
        &service,
        once,
        DirectoryAnswer::Subscribed(SubId(2)),
    )?;
    let third = answers(directories, &unknown, twice, no_such)?;
    Ok(first && second && third)
}

// A message of three letters, after two moments; then one of one letter.
fn hears<A: Allocator + Copy>(
    directories: &mut Directories<AtLeast, A>,
    words: &StepWords,
) -> Result<bool, NoMemory>
    requires { directories.old.shown.next < 200 }
    ensures { directories.new.shown.next < 300 }
{
    let moments: &[Moment] = &[
        Moment::Event(Sid(7), Mark::Ready),
        Moment::Event(Sid(8), Mark::Spawned),
    ];
    let first: &[(SubId, Hit)] = &[
        (SubId(2), Hit::Matched(Mark::Ready.letter())),
        (SubId(1), Hit::Matched(words.letters[0])),
    ];
    let last: &[(SubId, Hit)] = &[(SubId(1), Hit::Matched(words.letters[1]))];
    let done = DirectoryAnswer::Done;
    let three = DirectoryChange::Send(words.name, &words.three);
    let sent = gives(directories, moments, &three, None, done, first)?;
    let one = DirectoryChange::Send(words.name, &words.one);
    let more = gives(directories, moments, &one, None, done, last)?;
    Ok(sent && more)
}

// Where the two subscriptions stand then.
fn have_heard<A: Allocator + Copy>(
    directories: &Directories<AtLeast, A>,
    letters: &[Letter],
) -> bool {
    let ready = [Mark::Ready.letter()];
    stands(directories, SubId(1), letters, State::Live)
        && stands(directories, SubId(2), &ready, State::Done)
}

// The first subscription ends, and can't end again.
fn leaves<A: Allocator + Copy>(directories: &mut Directories<AtLeast, A>) -> Result<bool, NoMemory>
    requires { directories.old.shown.next < 300 }
{
    let first = DirectoryChange::Unsubscribe(SubId(1));
    let no_such = DirectoryAnswer::Refused(DirectoryFault::NoSuch);
    let nothing = DirectoryChange::Nothing;
    let left = answers(directories, &first, None, DirectoryAnswer::Done)?;
    let again = answers(directories, &first, None, no_such)?;
    let idle = answers(directories, &nothing, None, DirectoryAnswer::Done)?;
    Ok(left && again && idle)
}

// Whether the second subscription is left alone.
fn is_second_left<A: Allocator + Copy>(directories: &Directories<AtLeast, A>) -> bool {
    directories.list(SubId(1)).is_none() && directories.list(SubId(2)).is_some()
}

// A run of all of them, and whether each step was answered as it is to be: of `xyz` and then `w` a
// subscription to each two letters hears `y` and `w`; one to the first letter of service 7 hears
// its `U`.
fn runs_through<A: Allocator + Copy>(
    directories: &mut Directories<AtLeast, A>,
    words: &StepWords,
) -> Result<bool, NoMemory>
    requires { directories.old.shown.next < 100 }
{
    let made = makes(directories, words.name)?;
    let subscribed = subscribes(directories, words.name, words.other)?;
    let heard = hears(directories, words)? && have_heard(directories, &words.letters);
    let left = leaves(directories)? && is_second_left(directories);
    Ok(made && subscribed && heard && left)
}

#[test]
fn subscriptions_hear_their_sources(rt: HostRuntime) {
    let right = runs_through(&mut Directories::new(rt.alloc()), &StepWords::new(&rt));
    assert!(rt; right == Ok(true));
}

// On heaps of a growing size each growth is the first one refused.
#[test]
fn a_refused_step_is_told(rt: HostRuntime) {
    let words = StepWords::new(&rt);
    let mut counts = TrialCounts::new();
    for step in 0..240usize {
        let heap = new_heap(&rt, rt.alloc(), 32 * step);
        counts.add(&rt, runs_through(&mut Directories::new(&heap), &words));
    }
    counts.wants_more_than(&rt, 8);
}
