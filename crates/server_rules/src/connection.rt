//! A connection: what it asked, what is under way for it (its phase), and the waiters and
//! subscriptions that it made. An errand is what a step under way is for, and `Todo` what the
//! caller is to do. docs/PROTOCOL.md has the rules of connections.
ghost use Rattle.std.specs.Prelude.{◌≡◌, ◌∷◌, [], true, IfSome, IfNone};
ghost use Rattle.tree_core.specs.declared.input.Act.{Act};
ghost use Rattle.server_rules.specs.Connection.{View, new_view, ask_next, has_room_on, hands_in, is_ready, leave_next, left_unasked};
ghost use Rattle.server_rules.specs.NewsTold.{is_for, told_move};
ghost use Rattle.server_rules.specs.ErrandEnds.{answered_move, answered_errand, left_errand, recorded_move, refuse_errand_move, refuse_next_move};
ghost use Rattle.server_rules.specs.Begin.{begin_admitted, begin_beside, begin_put_off, begin_first, begin_move, begin_request, ends_by, is_step_first, steps_in};
ghost use Rattle.server_rules.specs.Made.{admission_of, has_place, has_room_for, is_told_more, next_end};
ghost use Rattle.server_rules.specs.declared.phase.Errand.TheVariants as errand;
ghost use Rattle.server_rules.specs.declared.phase.ClientPhase.TheVariants as phase;
ghost use Rattle.server_rules.specs.declared.requests.Request.TheVariants as request;

use crate::made_things::{Admission, MadeChange, MadeThings};
use crate::own_answer::OwnAnswer;
use crate::phase::{ClientPhase, Errand};
use crate::requests::Request;
use crate::status_age::is_recent;
use crate::status_lines::Subject;
use crate::todo::{Answer, News, Todo};
use std::alloc::Global;
use std::collections::VecDeque;
use std::marker::Model;
use std::mem;
use tree_core::{Act, Reply};

/// How many steps of a connection may be under way together: as many as its ring, where its acts
/// wait to be taken by the tree, holds.
const UNDER_WAY_LIMIT: usize = 64;

/// A connection: in `phase` what is under way for it, in `asked` the requests that aren't begun, in
/// `made` what it made and follows. Each event is a call, which returns what is to be done.
#[derive(Drop)]
pub struct Connection {
    phase: ClientPhase,
    /// The requests that aren't begun, in the order asked.
    asked: VecDeque<Request, Global>,
    made: MadeThings,
}

impl Model for Connection {
    ghost use Rattle.std.specs.Prelude.{◌≡◌, true};
    ghost use Rattle.server_rules.specs.Connection.{View, has_room_in};

    ghost Value = { View };

    ghost view = { λ c. record {
      phase = c.phase;
      asked = c.asked.items;
      made = c.made;
    } };

    ghost invariant = { λ c. has_room_in c.phase c.made ≡ true };
}

impl Connection {
    /// A connection that has asked nothing.
    pub fn new(alloc: Global) -> Connection
        ensures { result ≡ new_view }
    {
        Connection {
            phase: ClientPhase::Idle,
            asked: VecDeque::new(alloc),
            made: MadeThings::new(),
        }
    }

    /// Takes the requests that have come, in the order asked, if the client has not left and all
    /// that it asked before is begun. Else they stay in `coming`.
    pub fn receive(&mut self, coming: &mut Vec<Request>)
        ensures next { self.new ≡ ask_next coming.old.items self.old }
        ensures left { coming.new.items ≡ left_unasked coming.old.items self.old }
    {
        if self.phase.is_here() && self.asked.is_empty() {
            // The requests are moved, and `coming` is left empty.
            let none = Vec::new(*coming.allocator());
            self.asked = VecDeque::from_vec(mem::replace(coming, none));
        }
    }

    /// Begins what comes next, if what is under way allows it. `last_step` is the moment of the
    /// last step; it and `now` are in milliseconds. Nothing is begun while something is under way
    /// but steps (`Stepping`), beside which further ones may go on. After the end of a released
    /// waiter the wait that was put off comes next; for a client that has left (`Leaving`), the end
    /// of what it made.
    pub fn begin(&mut self, last_step: u64, now: u64) -> Todo
        ensures next { self.new ≡ (begin_move last_step now self.old).next }
        ensures todo { result ≡ (begin_move last_step now self.old).todo }
    {
        match self.phase {
            ClientPhase::Idle => self.begin_first(last_step, now),
            ClientPhase::Stepping(count) => self.begin_beside(count),
            ClientPhase::PutOff => self.begin_put_off(),
            ClientPhase::Leaving => self.end_next(),
            ClientPhase::UnderWay(_)
            | ClientPhase::LeftStepping(_)
            | ClientPhase::Left(_)
            | ClientPhase::Cancelling
            | ClientPhase::Gone => Todo::Nothing,
        }
    }

    // Begins the request that was asked first. A scan, a record, or a step makes that the
    // connection's errand, and is answered later; the others are answered at once.
    fn begin_first(&mut self, last_step: u64, now: u64) -> Todo
        ensures next { self.new ≡ (begin_first self.old.asked last_step now self.old).next }
        ensures todo { result ≡ (begin_first self.old.asked last_step now self.old).todo }
    {
        let Some(request) = self.asked.pop_front() else {
            return Todo::Nothing;
        };
        match request {
            Request::Step(act) => self.begin_step(act),
            Request::Status(subject) => self.begin_status(subject, last_step, now),
            Request::Scan => {
                self.phase = ClientPhase::UnderWay(Errand::Scan);
                Todo::Scan
            }
            Request::Record => {
                self.phase = ClientPhase::UnderWay(Errand::Record);
                Todo::Record
            }
            // No step is needed: the letters are told from now on.
            Request::Follow(services) => {
                self.made.follow(services);
                Todo::Give(Answer::Following)
            }
            Request::Clock => Todo::Give(Answer::Clock),
            Request::Refused(own) => Todo::Give(Answer::Own(own)),
        }
    }

    // Begins a step with this act. If it would make a waiter too many and one was released, that
    // one is ended first, and the act is put off until then. If none was released, or the act would
    // make a subscription too many, the answer is `Busy`. Any other act is handed in at once.
    fn begin_step(&mut self, act: Act<Global>) -> Todo
        ensures next { self.new ≡ (begin_admitted
            (admission_of act self.old.made) act self.old).next }
        ensures todo { result ≡ (begin_admitted
            (admission_of act self.old.made) act self.old).todo }
    {
        match self.made.admission(&act) {
            Admission::Admitted => self.hand_in_step(MadeChange::of(&act), act),
            Admission::AfterReleased => match self.made.take_released() {
                Some(id) => {
                    self.made.put_off(act);
                    self.hand_in(Errand::Replacement, Act::Cancel(id))
                }
                // This never comes: `AfterReleased` says that there is one.
                None => Todo::Give(Answer::Own(OwnAnswer::Busy)),
            },
            Admission::Refused => Todo::Give(Answer::Own(OwnAnswer::Busy)),
        }
    }

    // Hands in an act; `change` is what it makes or ends. Where that is no waiter and no
    // subscription, further such steps may go on beside it.
    fn hand_in_step(&mut self, change: MadeChange, act: Act<Global>) -> Todo
        requires { has_room_for change self.old.made ≡ true }
        ensures next { self.new ≡ (steps_in change 0 act self.old).next }
        ensures todo { result ≡ (steps_in change 0 act self.old).todo }
    {
        if change == MadeChange::Other {
            self.phase = ClientPhase::Stepping(1);
            return Todo::Submit(act);
        }
        self.hand_in(Errand::Step(change), act)
    }

    // Hands in the act that was put off, which is a wait: a released waiter has ended, so there is
    // room for one more.
    fn begin_put_off(&mut self) -> Todo
        requires { has_place self.old.made ≡ true }
        ensures next { self.new ≡ (begin_put_off self.old.made.put_off self.old).next }
        ensures todo { result ≡ (begin_put_off self.old.made.put_off self.old).todo }
    {
        match self.made.take_put_off() {
            Some(act) => self.hand_in(Errand::Step(MadeChange::MakesWaiter), act),
            // This never comes: the phase is `PutOff` only while an act is put off.
            None => {
                self.phase = ClientPhase::Idle;
                Todo::Give(Answer::Own(OwnAnswer::Busy))
            }
        }
    }

    // Begins the next request beside the `count` steps that are under way, if it is a step that
    // neither makes nor ends a waiter or a subscription, and fewer than 64 are under way.
    fn begin_beside(&mut self, count: usize) -> Todo
        requires { self.old.phase ≡ phase.Stepping count }
        ensures next { self.new ≡ (begin_beside count self.old).next }
        ensures todo { result ≡ (begin_beside count self.old).todo }
    {
        if count >= UNDER_WAY_LIMIT || !self.is_step_next() {
            return Todo::Nothing;
        }
        let Some(Request::Step(act)) = self.asked.pop_front() else {
            // `is_step_next` has just said that a step is next.
            unreachable!()
        };
        self.phase = ClientPhase::Stepping(count + 1);
        Todo::Submit(act)
    }

    // Whether the next request is a step that neither makes nor ends a waiter or a subscription.
    fn is_step_next(&self) -> bool
        ensures { result ≡ is_step_first self.now.asked }
    {
        match self.asked.front() {
            Some(Request::Step(act)) => MadeChange::of(act) == MadeChange::Other,
            _ => false,
        }
    }

    // Begins a request for the status of services: answers it at once where the last step, at the
    // moment `last_step`, is recent at `now`. Else it hands in a tick first: after that step the
    // status is of now. Both moments are in milliseconds.
    fn begin_status(&mut self, subject: Subject, last_step: u64, now: u64) -> Todo
        ensures next { self.new ≡ (begin_request
            (request.Status subject) last_step now self.old).next }
        ensures todo { result ≡ (begin_request
            (request.Status subject) last_step now self.old).todo }
    {
        if is_recent(last_step, now) {
            return Todo::Give(Answer::Status(subject));
        }
        self.hand_in(Errand::Status(subject), Act::Tick)
    }

    // Hands in an act as the only thing that is under way for the connection; `errand` says what
    // its reply is for.
    fn hand_in(&mut self, errand: Errand, act: Act<Global>) -> Todo
        requires { has_room_on errand self.old.made ≡ true }
        ensures next { self.new ≡ (hands_in errand act self.old).next }
        ensures todo { result ≡ (hands_in errand act self.old).todo }
    {
        self.phase = ClientPhase::UnderWay(errand);
        Todo::Submit(act)
    }

    // Ends the next of the waiters and subscriptions that it made, for a client that has left.
    // Where none is left, it follows nobody any more, and the connection is gone.
    fn end_next(&mut self) -> Todo
        ensures next { self.new ≡ (ends_by (next_end self.old.made) self.old).next }
        ensures todo { result ≡ (ends_by (next_end self.old.made) self.old).todo }
    {
        match self.made.take_next() {
            Some(act) => {
                self.phase = ClientPhase::Cancelling;
                Todo::Submit(act)
            }
            None => {
                self.made.let_go();
                self.phase = ClientPhase::Gone;
                Todo::Free
            }
        }
    }

    /// Takes the reply to the step, or to the scan, that was under way. Where several steps are, it
    /// is that to the first of them, and one less is under way. For a client that has left nothing
    /// is posted.
    pub fn answered(&mut self, reply: &Reply<Global>) -> Todo
        ensures next { self.new ≡ (answered_move reply.now self.old).next }
        ensures todo { result ≡ (answered_move reply.now self.old).todo }
    {
        match self.phase {
            ClientPhase::Stepping(count) => {
                self.phase = if count < 2 {
                    ClientPhase::Idle
                } else {
                    ClientPhase::Stepping(count - 1)
                };
                Todo::Give(Answer::TheReply)
            }
            ClientPhase::UnderWay(errand) => self.finish(errand, reply),
            ClientPhase::LeftStepping(count) => {
                self.phase = if count < 2 {
                    ClientPhase::Leaving
                } else {
                    ClientPhase::LeftStepping(count - 1)
                };
                Todo::Nothing
            }
            ClientPhase::Left(errand) => {
                self.finish_left(errand, reply);
                Todo::Nothing
            }
            // One thing that the client made, and left behind, has ended: `begin` ends the next
            // one.
            ClientPhase::Cancelling => {
                self.phase = ClientPhase::Leaving;
                Todo::Nothing
            }
            // Nothing is under way, so no reply is awaited.
            ClientPhase::Idle | ClientPhase::PutOff | ClientPhase::Leaving | ClientPhase::Gone =>
                Todo::Nothing,
        }
    }

    // Takes the reply to what was under way by itself: from then on nothing is (`Idle`), but after
    // a `Replacement`. A record is not answered by a reply, but by `recorded`.
    fn finish(&mut self, errand: Errand, reply: &Reply<Global>) -> Todo
        requires room { has_room_on errand self.old.made ≡ true }
        requires under { self.old.phase ≡ phase.UnderWay errand }
        ensures next { self.new ≡ (answered_errand errand reply.now self.old).next }
        ensures todo { result ≡ (answered_errand errand reply.now self.old).todo }
    {
        match errand {
            Errand::Step(change) => {
                self.phase = ClientPhase::Idle;
                self.made.note_reply(change, reply);
                Todo::Give(Answer::TheReply)
            }
            Errand::Scan => {
                self.phase = ClientPhase::Idle;
                Todo::Give(Answer::TheReply)
            }
            Errand::Status(subject) => {
                self.phase = ClientPhase::Idle;
                Todo::Give(Answer::Status(subject))
            }
            // The released waiter has ended; the wait that was put off is begun next.
            Errand::Replacement => {
                self.phase = ClientPhase::PutOff;
                Todo::Nothing
            }
            Errand::Record => Todo::Nothing,
        }
    }

    // Takes the reply to what was under way by itself, for a client that has left: nothing is
    // posted. A record is ended by `recorded`.
    fn finish_left(&mut self, errand: Errand, reply: &Reply<Global>)
        requires room { has_room_on errand self.old.made ≡ true }
        requires under { self.old.phase ≡ phase.Left errand }
        ensures { self.new ≡ (left_errand errand reply.now self.old).next }
    {
        match errand {
            Errand::Step(change) => {
                self.phase = ClientPhase::Leaving;
                // What the step made is noted, so that it is ended too.
                self.made.note_reply(change, reply);
            }
            Errand::Scan | Errand::Status(_) | Errand::Replacement => {
                self.phase = ClientPhase::Leaving
            }
            Errand::Record => {}
        }
    }

    /// The run that was to be recorded is in the record, which has `steps` steps now. Nothing
    /// changes where the connection waits for no record, and nothing is posted where its client has
    /// left (`Left`).
    pub fn recorded(&mut self, steps: u64) -> Todo
        ensures next { self.new ≡ (recorded_move steps self.old).next }
        ensures todo { result ≡ (recorded_move steps self.old).todo }
    {
        match self.phase {
            ClientPhase::UnderWay(Errand::Record) => {
                self.phase = ClientPhase::Idle;
                Todo::Give(Answer::Recorded(steps))
            }
            ClientPhase::Left(Errand::Record) => {
                self.phase = ClientPhase::Leaving;
                Todo::Nothing
            }
            _ => Todo::Nothing,
        }
    }

    /// The scan, or the record, that is under way can't be made, for this reason. Nothing changes
    /// where neither is under way, and nothing is posted where the client has left (`Left`).
    pub fn refuse_errand(&mut self, reason: OwnAnswer) -> Todo
        ensures next { self.new ≡ (refuse_errand_move reason self.old).next }
        ensures todo { result ≡ (refuse_errand_move reason self.old).todo }
    {
        match self.phase {
            ClientPhase::UnderWay(Errand::Scan | Errand::Record) => {
                self.phase = ClientPhase::Idle;
                Todo::Give(Answer::Own(reason))
            }
            ClientPhase::Left(Errand::Scan | Errand::Record) => {
                self.phase = ClientPhase::Leaving;
                Todo::Nothing
            }
            _ => Todo::Nothing,
        }
    }

    /// No step can be made now. The reason answers the request that was asked first, if there is
    /// one and the connection is idle.
    pub fn refuse_next(&mut self, reason: OwnAnswer) -> Todo
        ensures next { self.new ≡ (refuse_next_move reason self.old).next }
        ensures todo { result ≡ (refuse_next_move reason self.old).todo }
    {
        if !matches!(self.phase, ClientPhase::Idle) {
            return Todo::Nothing;
        }
        match self.asked.pop_front() {
            Some(_) => Todo::Give(Answer::Own(reason)),
            None => Todo::Nothing,
        }
    }

    /// Whether it is to be told the news: they are of its subscription, of its waiter, or of a
    /// service that it follows, and it has not left.
    pub fn is_for(&self, news: &News) -> bool
        ensures { result ≡ is_for news.now self.now }
    {
        self.phase.is_here()
            && match news {
                News::Match(found) => self.made.has_subscription(found.subscription),
                News::Release(release) => self.made.has_waiter(release.waiter),
                News::Letter(letter) => self.made.is_followed(&letter.name),
            }
    }

    /// Takes news, which may be for another connection: `Tell` where they are for this one, else
    /// `Nothing`. A waiter whose release is told waits no more: it moves to the released ones.
    pub fn told(&mut self, news: &News) -> Todo
        ensures next { self.new ≡ (told_move news.now self.old).next }
        ensures todo { result ≡ (told_move news.now self.old).todo }
    {
        if !self.is_for(news) {
            return Todo::Nothing;
        }
        if let News::Release(release) = news {
            self.made.note_release(release.waiter);
        }
        Todo::Tell
    }

    /// The client leaves. Its requests that aren't begun are dropped. What is under way goes on,
    /// and what it made is ended after that.
    pub fn leave(&mut self)
        ensures { self.new ≡ leave_next self.old }
    {
        if !self.phase.is_here() {
            return;
        }
        self.asked.clear();
        self.phase = match self.phase {
            ClientPhase::Stepping(count) => ClientPhase::LeftStepping(count),
            ClientPhase::UnderWay(errand) => ClientPhase::Left(errand),
            _ => ClientPhase::Leaving,
        };
    }

    /// Whether nothing is under way for it, and there is something to begin: a request, a wait that
    /// was put off, or, once its client has left, the end of what it made.
    pub fn is_ready(&self) -> bool
        ensures { result ≡ is_ready self.now }
    {
        match self.phase {
            ClientPhase::Idle => !self.asked.is_empty(),
            ClientPhase::PutOff | ClientPhase::Leaving => true,
            _ => false,
        }
    }

    /// Whether something may still be told to it, though it asks nothing.
    pub fn is_told_more(&self) -> bool
        ensures { result ≡ is_told_more self.now.made }
    {
        self.made.is_told_more()
    }
}
