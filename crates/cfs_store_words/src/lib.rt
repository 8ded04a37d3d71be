//! The words of a store are read from its devices and surveyed, before a mount changes anything.
#![tactic(auto)]

mod blocks;
mod read_failed;
mod regions;
mod store;
mod survey;
mod survey_failed;

pub use read_failed::ReadFailed;
pub use store::read_words;
pub use survey::survey_store;
pub use survey_failed::SurveyFailed;
