//! The spans that the requests of a file hold, in a tree.
//!
//! A `SpanTree` keeps a span for each place. It is balanced and ordered by where the spans start,
//! and each node knows the greatest end on either side of it, so a search for the spans that meet
//! an asked one passes over every side that ends too early. What a search costs is counted in reads
//! of the store that holds the nodes.
#![tactic(auto)]

mod bound;
mod search;
mod span_node;
mod span_tree;
mod steps;
mod store;

pub use bound::bound_of_two_hundred;
pub use span_node::SpanNode;
pub use span_tree::SpanTree;
pub use steps::Steps;
pub use store::SpanStore;
