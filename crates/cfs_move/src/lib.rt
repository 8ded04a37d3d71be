//! Images of version 1, made images of the present version.
#![tactic(auto)]

mod upgrade;

pub use upgrade::upgrade_bytes;
