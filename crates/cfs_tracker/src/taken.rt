//! What a job takes.

use crate::Tile;

/// What a job takes of a change: its slots and its next blocks, which ascend.
#[derive(Debug, Drop)]
pub struct Taken<S, B> {
    pub slots: S,
    pub first: Option<Tile<B>>,
    pub second: Option<Tile<B>>,
}
