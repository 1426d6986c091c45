//! Laws that hold for every list of events of a connection. Each is the contract of a function that
//! does nothing, so that its statement is proved. The proof is about the chart in `server_rules`,
//! which the contract of each call of `Connection` cites.
#![tactic(auto)]

ghost use Rattle.std.specs.Prelude.{◌≡◌, List, true};
ghost use Rattle.server_laws.specs.History.{Event, History, opened, run};
ghost use Rattle.server_laws.specs.Laws.{AnsweredInOrder, EndsOnce, NothingIsLeft, SilentOnceLeft, ToldItsOwn, is_ending};

/// The requests that a connection took are answered one by one, in the order asked, whatever comes
/// between. While its client has not left, those that are not answered yet are begun, or wait.
pub fn answered_in_order()
    ensures { (events : List Event) → AnsweredInOrder (run events opened) }
{}

/// Once the client has left nothing is posted to it any more.
pub fn silent_once_left()
    ensures { (before : List Event) → (after : List Event) → SilentOnceLeft before after }
{}

/// News that a connection was told are of a waiter or a subscription that it made, or of a service
/// that it follows.
pub fn told_its_own()
    ensures { (events : List Event) → ToldItsOwn (run events opened) }
{}

/// A connection that is gone (`ClientPhase::Gone`) has no waiter and no subscription, follows
/// no service, and has no wait that is put off.
pub fn nothing_is_left()
    ensures { (events : List Event) → NothingIsLeft (run events opened) }
{}

/// Once the client has left, and what was under way is answered, each waiter and each subscription
/// that the connection then has is ended once, in order. Whatever comes: the acts that are handed
/// in from then on, and then those that would end all that is left, are together the acts that end
/// all that it had.
pub fn ends_once()
    ensures { (h : History) → (events : List Event) → is_ending h.now.phase ≡ true
        → EndsOnce h events }
{}
