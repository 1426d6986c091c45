//! What has happened in a run, told to people: its script as a story with a line for each event,
//! and as a timeline with a lane for each service name.
#![tactic(auto)]

mod act_words;
mod cause;
mod drawing;
mod effect_words;
mod intervals;
mod lanes;
mod moments;
mod reply_words;
mod scale;
mod shade;
mod story;
mod timeline;

pub use story::tell_story;
pub use timeline::draw_timeline;
