ghost use Rattle.std.specs.Prelude.{◌≡◌};
ghost use Rattle.cfs_dir.specs.Moved.{change_of};

use crate::change::Change;
use crate::node::Node;

/// What a rename does.
#[derive(Clone, Copy, Debug, PartialEq, Eq)]
pub struct Moved {
    /// The node as it stands from then on.
    pub node: Node,
    /// The node that had its path, which is gone.
    pub replaced: Option<Node>,
}

impl Moved {
    /// The change that it makes of a tree.
    pub fn change(&self) -> Change
        ensures { result ≡ change_of self.now }
    {
        let replaced = match self.replaced {
            Some(node) => Some(node.rec),
            None => None,
        };
        Change::Move {
            node: self.node,
            replaced,
        }
    }
}
