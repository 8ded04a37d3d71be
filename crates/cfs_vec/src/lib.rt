//! A vector of a fixed capacity for values of any type, also of one that has no blank value.
#![tactic(auto)]

mod fixed_vec;

pub use fixed_vec::FixedVec;
