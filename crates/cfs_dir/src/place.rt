use crate::name::Name;
use crate::node::Node;

/// Where a path leads to.
#[derive(Clone, Copy, Debug)]
pub enum Place {
    /// The root, by the path of no names.
    Root(Node),
    /// A name in a directory, and the node of that name, if there is one.
    Entry(Node, Name, Option<Node>),
}
