//! Scripts: inputs of the machine, acts, and what the machine answers, as text, and the writing of
//! it. The format is this program's own, not one of s6.
#![tactic(auto)]

mod act_limits;
mod death_list;
mod digits;
mod effect_lines;
mod entry_options;
mod limits;
mod parse;
mod plain_spelling;
mod recording;
mod reply_text;
mod reports;
mod spelling;
mod subscribing;
mod unbuilt;
mod version;
mod waiting;
mod words;
mod writing;

pub use death_list::push_permafailon;
pub use digits::{push_number, push_spaced};
pub use effect_lines::{
    push_events, push_match, push_matches, push_orders, push_release, push_releases,
};
pub use limits::INPUT_LINE_LIMIT;
pub use parse::{LineFault, parse_act, parse_into, parse_line};
pub use plain_spelling::spell_plain;
pub use recording::{SpellFault, spell_step, write_input, write_reply};
pub use reply_text::{push_reply, push_row};
pub use spelling::{push_act, push_letters, push_named, push_svc};
pub use subscribing::{push_send, push_subscribe};
pub use version::Version;
pub use waiting::push_wait;
pub use writing::{WriteFault, write_whole};
