//! Event directories and their subscriptions: a subscription hears a letter when its pattern is
//! sought in the text that ends with it.
#![tactic(auto)]

mod directories;
mod directory;
mod directory_change;
mod directory_plan;
mod embedding;
mod finds;
mod hit;
mod image;
pub mod laws;
mod listened;
mod message;
mod pattern;
mod pattern_fault;
mod pending_step;
mod plan;
mod refusing;
mod register;
mod source;
mod source_directory;
mod step;
mod step_letters;
mod sub_view;
mod subscription;
mod subscriptions;

pub use directories::Directories;
pub use directory::Directory;
pub use directory_change::{DirectoryAnswer, DirectoryChange, DirectoryFault};
pub use directory_plan::DirectoriesPlan;
pub use finds::Finds;
pub use hit::Hit;
pub use image::{DirectoriesImage, SourceImage, SubscriptionImage};
pub use message::Message;
pub use pattern::{PATTERN_LIMITS, Pattern};
pub use pattern_fault::PatternFault;
pub use plan::LettersPlan;
pub use source::Source;
pub use sub_view::{State, SubView};
