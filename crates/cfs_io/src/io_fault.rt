//! A fault of something outside.

use std::fmt;

/// A source, a sink or a shelf failed. It comes only from a call in which that object's count of
/// faults rose.
#[derive(Clone, Copy, Debug, PartialEq, Eq)]
pub struct IoFault;

impl fmt::Display for IoFault {
    fn fmt<W: fmt::Write>(&self, f: &mut fmt::Formatter<W>) -> fmt::Result {
        write!(f, "input or output failed")
    }
}

impl std::error::Error for IoFault {}
