//! Jobs: a worker carries out one live request, in at most two blocks of its file.
#![tactic(auto)]

mod job;
mod lent;
mod piece;
mod tile;
mod tiles;
mod turn;

pub use job::Job;
pub use lent::Lent;
pub use turn::Turn;
