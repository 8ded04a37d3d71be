//! A store is read from its devices, surveyed and brought home: a mount's whole work on devices.
#![tactic(auto)]

mod home;
mod laws;
mod restore_failed;
mod restored;
mod whole;

pub use laws::still_stores_stand;
pub use restore_failed::RestoreFailed;
pub use restored::Restored;
pub use whole::restore;
