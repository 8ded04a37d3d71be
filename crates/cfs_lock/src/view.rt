//! What a pass knows of the lock. No value of these types is made: they are for the proofs alone.

/// Where a pass stands, with its ticket and what it found.
pub enum Stage<X> {
    Idle,
    Waits(u64),
    Holds(u64, X),
    Done(u64),
}

/// The entries and the part of one number.
pub struct Book {
    pub number: u64,
    pub own: [(u64, [u64; 0]); 0],
    pub part: [[u64; 0]; 0],
}

/// What a pass knows.
pub struct View<X> {
    pub stage: Stage<X>,
    /// The fronts of the log that it has seen.
    pub seen: [[(u64, [u64; 0]); 0]; 0],
    /// The books of its own number and of those joined to it.
    pub books: [Book; 0],
    /// How many numbers it may still give.
    pub left: u64,
    /// The log when the lock was made.
    pub base: [(u64, [u64; 0]); 0],
    /// How many numbers there are.
    pub bound: u64,
}
