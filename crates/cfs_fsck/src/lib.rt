//! All checks of an image, and what it holds where it passes them.
#![tactic(auto)]

mod check;
mod count;
mod kinds;
mod report;
mod survey;
mod words;

pub use check::check_image;
pub use report::Report;
pub use survey::survey_image;
