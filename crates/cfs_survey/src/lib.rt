//! The checks on the words of a store that come behind those of its header: of its table, sizes,
//! journal, tags and slots.
#![tactic(auto)]

mod changes;
mod children;
mod entries;
mod fault;
mod fields;
mod heads;
mod journal;
mod live_entry;
mod names;
mod places;
mod recovered;
mod refusal;
mod sizes;
mod slots;
mod store_words;
mod survey;
mod table;
mod tags;
mod tails;
mod tree_so_far;

pub use changes::RECORD_WORDS;
pub use fault::Fault;
pub use heads::HEAD_WORDS;
pub use journal::read_journal;
pub use live_entry::LiveEntry;
pub use recovered::Recovered;
pub use refusal::SurveyRefusal;
pub use sizes::check_sizes;
pub use slots::read_slots;
pub use store_words::StoreWords;
pub use survey::{Survey, survey_words};
pub use table::read_table;
pub use tags::read_tags;
