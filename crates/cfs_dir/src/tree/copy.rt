//! A second tree like one.
ghost use Rattle.std.specs.Prelude.{◌≡◌, IfOk, length};
ghost use Rattle.cfs_dir.specs.Table.{nodes_of};

use super::{RECORDS, Tree};
use crate::node::Node;
use crate::nodes::Nodes;
use std::alloc::{AllocError, Global};

impl Clone for Tree {
    ghost is_clone = { λ tree copy. copy ≡ tree };

    fn clone(&self) -> Result<Tree, AllocError> {
        let alloc = *self.index.allocator();
        let nodes = nodes_in(alloc, &self.nodes)?;
        Ok(Tree::new(alloc, nodes, self.next)?)
    }
}

/// The nodes, by ascending record.
fn nodes_in(alloc: Global, nodes: &Nodes) -> Result<Vec<Node>, AllocError>
    requires { length nodes.now ≡ 256 }
    ensures { IfOk result (λ list. list.items ≡ nodes_of nodes.now) }
{
    let mut list = Vec::new(alloc);
    for rec in 0..RECORDS as u32 {
        if let Some(node) = nodes.get(rec) {
            list.push(*node)?;
        }
    }
    Ok(list)
}
