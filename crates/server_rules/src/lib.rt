//! What the server of a tree decides, with no thread of its own: what a line asks for, who each
//! actor is, when a tick or a scan is wanted, what is done for a connection at each event, what a
//! step posts to whom, which rows may be told and in which state a service is, when a run takes
//! inputs and when it ends, which socket is abandoned, and what is told of a tree that did not run
//! to its end. The driver is the thread that drives the tree's runs.
#![tactic(auto)]

mod abandoned_socket;
mod cached_rows;
mod connection;
mod following;
mod full_services;
mod handover;
mod letters;
mod made_things;
mod own_answer;
mod phase;
mod places;
mod plans;
mod recipients;
mod requests;
mod roster;
mod serve_fault;
mod state_word;
mod status_age;
mod status_lines;
mod step_notes;
mod texts;
mod todo;
mod unwanted_starts;

pub use abandoned_socket::{FileIdentity, says_abandoned};
pub use cached_rows::CachedRows;
pub use connection::Connection;
pub use following::Following;
pub use full_services::FullServices;
pub use handover::{After, Carrying, Halt, Pace, RETRY_WAIT, Round, RunEnd};
pub use letters::ToldLetter;
pub use made_things::{
    Admission, CLIENT_SUBSCRIPTION_LIMIT, CLIENT_WAITER_LIMIT, MadeChange, MadeThings,
};
pub use own_answer::OwnAnswer;
pub use phase::{ClientPhase, Errand};
pub use places::{
    ACTOR_COUNT, FIRST_CLIENT, FIRST_LANE, LANE_LIMIT, Place, SCANNER, client_actor, place_of,
};
pub use plans::{Askers, Plans, Wanted};
pub use recipients::{Line, Post, askers_of, hand_out};
pub use requests::{Request, read_request};
pub use roster::{Ending, Member, Roster};
pub use serve_fault::{ServeFault, tell_serve_fault};
pub use state_word::{StateWord, state_of};
pub use status_age::is_recent;
pub use status_lines::Subject;
pub use step_notes::StepNotes;
pub use texts::{clock_line, following_line, news_lines, recorded_line, reply_lines, serving_line};
pub use todo::{Answer, News, Todo};
pub use unwanted_starts::take_down;
