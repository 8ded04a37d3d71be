//! Bytes, requests and the file that they make.
//!
//! This crate says what a file is, what each request does to it and answers, and which span of
//! positions a request has. `file_after` and `answer_of` are the plain and slow program of these
//! definitions: they fold a whole log, so nothing on a request's path calls them.
#![tactic(auto)]

mod answer;
mod bytes;
mod entry;
mod file;
mod no_memory;
mod request;
mod sizes;
mod span;
mod word;

pub use answer::Answer;
pub use bytes::Bytes;
pub use entry::Entry;
pub use file::{answer_of, answer_on, apply, file_after};
pub use no_memory::NoMemory;
pub use request::Request;
pub use sizes::{
    BLOCK_LEN, FILE_BLOCKS, FIRST_SLOT, KIND_UNIT, LONGEST_FILE, LONGEST_READ, LONGEST_WRITE,
    QUEUE_SLOTS,
};
pub use span::{Span, covers, overlaps, span_of};
pub use word::Word;
