//! What a step posts to whom, and in which order. A post is a line, and the slot of the connection
//! that gets it: an answer, or news.
ghost use Rattle.std.specs.Prelude.{◌≡◌, ◌++◌, ◌+◌, ◌*◌, ◌≤◌, ◌<◌, length, vec_capacity, OnOk, OnErr};
ghost use Rattle.std.specs.List.{position};
ghost use Rattle.tree_core.specs.Effect.{outcome_of};
ghost use Rattle.server_rules.specs.NewsTold.{is_for};
ghost use Rattle.server_rules.specs.Recipients.{answer_at, askers_of, hand_all, handed_out, posts_of, tells_states, tell, tell_letter, tell_match, tell_release, tell_slot};

use crate::connection::Connection;
use crate::places::Place;
use crate::plans::Askers;
use crate::roster::Roster;
use crate::status_lines::Subject;
use crate::todo::{Answer, News, Todo};
use arrayvec::ArrayVec;
use line_server::SLOT_COUNT;
use s6_events::{At, NoMemory};
use std::alloc::Global;
use svscan_core::Event;
use tree_core::{Effect, Match, Release, Reply};

/// The slots of connections, in rising order.
const ALL_SLOTS: [usize; SLOT_COUNT] = [0, 1, 2, 3, 4, 5, 6, 7, 8, 9, 10];

/// What is posted to a connection.
#[derive(Clone, Copy, PartialEq, Eq, Debug)]
pub enum Line {
    Answer(Answer),
    News(News),
}

/// A line, and the slot of the connection to which it is posted.
#[derive(Clone, Copy, PartialEq, Eq, Debug)]
pub struct Post {
    pub slot: usize,
    pub line: Line,
}

impl Post {
    /// Whether it tells the states of services.
    pub fn tells_states(&self) -> bool
        ensures { result ≡ tells_states self.now.line }
    {
        matches!(self.line, Line::Answer(Answer::Status(Subject::States)))
    }
}

/// The slots of the connections that the reply to a step answers: for a scan those for which it was
/// made, for a request the one that asked, else none. `place` is whose step it is.
pub fn askers_of(place: Place, is_scan: bool, served: &Askers) -> Askers
    ensures { result.items ≡ askers_of place is_scan served.now.items }
{
    let mut askers = ArrayVec::new();
    // The list has room for all slots, so it takes whatever is added.
    let _ = match place {
        Place::Scanner if is_scan => askers.try_extend_from_slice(served.as_slice()),
        Place::Client(slot) => askers.try_extend_from_slice(&[slot]),
        Place::Scanner | Place::Lane(_) => Ok(()),
    };
    askers
}

/// Hands a step's result to the connections, which are listed by slot, and adds what is posted, in
/// this order: the reply, to the connections on `slots`; the letters, to the connections that
/// follow their services; the matches, to the connections that made the subscriptions; the
/// releases, to the connections that made the waiters. At `NoMemory` nothing was handed out, and
/// nothing was added.
pub fn hand_out(
    slots: &[usize],
    at: At,
    roster: &Roster,
    effect: &Effect<Global>,
    connections: &mut Vec<Connection>,
    posts: &mut Vec<Post>,
) -> Result<(), NoMemory>
    ensures connections { OnOk result (connections.new.items
        ≡ (handed_out slots.now at roster.now (outcome_of effect.now)
        connections.old.items).connections) }
    ensures posts { OnOk result (posts.new.items ≡ posts.old.items
        ++ (handed_out slots.now at roster.now (outcome_of effect.now)
        connections.old.items).posts) }
    ensures refused { OnErr result ((connections.new ≡ connections.old)
        × (posts.new.items ≡ posts.old.items)) }
{
    let (matched, released) = (effect.matched.as_slice(), effect.released.as_slice());
    let news = matched.len().saturating_add(released.len());
    // Each letter may go to every connection.
    let told = effect.events.len().saturating_mul(SLOT_COUNT);
    // Room for all posts is taken first, so that nothing can fail half-way.
    posts.reserve(slots.len().saturating_add(told.saturating_add(news)))?;
    answer_all(slots, &effect.reply, connections, posts);
    tell_letters(at, roster, effect.events.as_slice(), connections, posts);
    tell_matches(matched, connections, posts);
    tell_releases(released, connections, posts);
    Ok(())
}

// The reply goes to the connections of these slots.
fn answer_all(
    slots: &[usize],
    reply: &Reply<Global>,
    connections: &mut Vec<Connection>,
    posts: &mut Vec<Post>,
)
    requires { length posts.old.items + length slots.now ≤ vec_capacity posts.old }
    ensures connections { connections.new.items
        ≡ (hand_all (answer_at reply.now) slots.now connections.old.items).connections }
    ensures posts { posts.new.items ≡ posts.old.items
        ++ (hand_all (answer_at reply.now) slots.now connections.old.items).posts }
    ensures room { vec_capacity posts.new ≡ vec_capacity posts.old }
    ensures count { length posts.new.items ≤ length posts.old.items + length slots.now }
{
    for slot in slots {
        answer_one(*slot, reply, connections, posts);
    }
}

// The reply goes to the connection of this slot: `answered` says what is posted to it.
fn answer_one(
    slot: usize,
    reply: &Reply<Global>,
    connections: &mut Vec<Connection>,
    posts: &mut Vec<Post>,
)
    requires { length posts.old.items < vec_capacity posts.old }
    ensures connections { connections.new.items
        ≡ (answer_at reply.now slot connections.old.items).connections }
    ensures posts { posts.new.items ≡ posts.old.items
        ++ (answer_at reply.now slot connections.old.items).posts }
    ensures room { vec_capacity posts.new ≡ vec_capacity posts.old }
    ensures count { length posts.new.items ≤ length posts.old.items + 1 }
{
    let Some(connection) = connections.get_mut(slot) else {
        return;
    };
    add_post(slot, connection.answered(reply), None, posts);
}

// The letters of a step at this moment go to the connections that follow their services.
fn tell_letters(
    at: At,
    roster: &Roster,
    events: &[Event],
    connections: &mut Vec<Connection>,
    posts: &mut Vec<Post>,
)
    requires { length posts.old.items + length events.now * 11 ≤ vec_capacity posts.old }
    ensures connections { connections.new.items
        ≡ (hand_all (tell_letter at roster.now) events.now connections.old.items).connections }
    ensures posts { posts.new.items ≡ posts.old.items
        ++ (hand_all (tell_letter at roster.now) events.now connections.old.items).posts }
    ensures room { vec_capacity posts.new ≡ vec_capacity posts.old }
    ensures count { length posts.new.items ≤ length posts.old.items + length events.now * 11 }
{
    for event in events {
        tell_letter(at, roster, event, connections, posts);
    }
}

// A letter goes to the connections that follow its service.
fn tell_letter(
    at: At,
    roster: &Roster,
    event: &Event,
    connections: &mut Vec<Connection>,
    posts: &mut Vec<Post>,
)
    requires { length posts.old.items + 11 ≤ vec_capacity posts.old }
    ensures connections { connections.new.items
        ≡ (tell_letter at roster.now event.now connections.old.items).connections }
    ensures posts { posts.new.items ≡ posts.old.items
        ++ (tell_letter at roster.now event.now connections.old.items).posts }
    ensures room { vec_capacity posts.new ≡ vec_capacity posts.old }
    ensures count { length posts.new.items ≤ length posts.old.items + 11 }
{
    let letter = News::Letter(roster.letter(at, event));
    tell_slots(&ALL_SLOTS, &letter, connections, posts);
}

// The news go to each connection on these slots that they concern.
fn tell_slots(
    slots: &[usize],
    news: &News,
    connections: &mut Vec<Connection>,
    posts: &mut Vec<Post>,
)
    requires { length posts.old.items + length slots.now ≤ vec_capacity posts.old }
    ensures connections { connections.new.items
        ≡ (hand_all (tell_slot news.now) slots.now connections.old.items).connections }
    ensures posts { posts.new.items ≡ posts.old.items
        ++ (hand_all (tell_slot news.now) slots.now connections.old.items).posts }
    ensures room { vec_capacity posts.new ≡ vec_capacity posts.old }
    ensures count { length posts.new.items ≤ length posts.old.items + length slots.now }
{
    for slot in slots {
        tell_slot(*slot, news, connections, posts);
    }
}

// The news go to the connection on this slot, if they concern it: `told` says whether they are
// posted.
fn tell_slot(slot: usize, news: &News, connections: &mut Vec<Connection>, posts: &mut Vec<Post>)
    requires { length posts.old.items < vec_capacity posts.old }
    ensures connections { connections.new.items
        ≡ (tell_slot news.now slot connections.old.items).connections }
    ensures posts { posts.new.items ≡ posts.old.items
        ++ (tell_slot news.now slot connections.old.items).posts }
    ensures room { vec_capacity posts.new ≡ vec_capacity posts.old }
    ensures count { length posts.new.items ≤ length posts.old.items + 1 }
{
    let Some(connection) = connections.get_mut(slot) else {
        return;
    };
    add_post(slot, connection.told(news), Some(*news), posts);
}

// Each match of a step goes to the connection that made its subscription. `posts` has room for what
// is added.
fn tell_matches(matched: &[Match], connections: &mut Vec<Connection>, posts: &mut Vec<Post>)
    requires { length posts.old.items + length matched.now ≤ vec_capacity posts.old }
    ensures connections { connections.new.items
        ≡ (hand_all tell_match matched.now connections.old.items).connections }
    ensures posts { posts.new.items ≡ posts.old.items
        ++ (hand_all tell_match matched.now connections.old.items).posts }
    ensures room { vec_capacity posts.new ≡ vec_capacity posts.old }
    ensures count { length posts.new.items ≤ length posts.old.items + length matched.now }
{
    for found in matched {
        tell_one(News::Match(*found), connections, posts);
    }
}

// Each release of a step goes to the connection that made its waiter. `posts` has room for what is
// added.
fn tell_releases(released: &[Release], connections: &mut Vec<Connection>, posts: &mut Vec<Post>)
    requires { length posts.old.items + length released.now ≤ vec_capacity posts.old }
    ensures connections { connections.new.items
        ≡ (hand_all tell_release released.now connections.old.items).connections }
    ensures posts { posts.new.items ≡ posts.old.items
        ++ (hand_all tell_release released.now connections.old.items).posts }
{
    for release in released {
        tell_one(News::Release(*release), connections, posts);
    }
}

// The news go to the connection that made the subscription or the waiter; to nobody where they
// concern no connection.
fn tell_one(news: News, connections: &mut Vec<Connection>, posts: &mut Vec<Post>)
    requires { length posts.old.items < vec_capacity posts.old }
    ensures connections { connections.new.items ≡ (tell news connections.old.items).connections }
    ensures posts { posts.new.items ≡ posts.old.items ++ (tell news connections.old.items).posts }
    ensures room { vec_capacity posts.new ≡ vec_capacity posts.old }
    ensures count { length posts.new.items ≤ length posts.old.items + 1 }
{
    let Some(slot) = maker_of(connections, &news) else {
        return;
    };
    tell_slot(slot, &news, connections, posts);
}

// The slot of the first connection that the news concern; None where they concern none.
fn maker_of(connections: &[Connection], news: &News) -> Option<usize>
    ensures { result ≡ position (is_for news.now) connections.now }
{
    connections.iter().position(|one| one.is_for(news))
}

// Adds what is posted to a connection, if anything is: an answer, or the news. There is room for
// it.
fn add_post(slot: usize, todo: Todo, news: Option<News>, posts: &mut Vec<Post>)
    requires { length posts.old.items < vec_capacity posts.old }
    ensures posts { posts.new.items ≡ posts.old.items ++ posts_of slot news todo }
    ensures room { vec_capacity posts.new ≡ vec_capacity posts.old }
    ensures count { length posts.new.items ≤ length posts.old.items + 1 }
{
    let line = match (todo, news) {
        (Todo::Give(answer), _) => Line::Answer(answer),
        (Todo::Tell, Some(news)) => Line::News(news),
        // No line: the connection has nothing to tell, or waits for more.
        _ => return,
    };
    posts.push_reserved(Post { slot, line });
}
