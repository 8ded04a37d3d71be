//! The sizes of files.
ghost use Rattle.std.specs.Prelude.{◌≡◌, ◌<◌, ◌^◌, All, length};
ghost use Rattle.cfs_image.specs.Checks.{damage_of};
ghost use Rattle.cfs_survey.specs.Faults.{reported};
ghost use Rattle.cfs_survey.specs.Sizes.{size_checks, sizes_checks};

use crate::fault::{Fault, ensure};
use cfs_dir::Node;

/// The greatest size of a file, in bytes.
const LARGEST_SIZE: u64 = 1_048_576;

/// Checks the size word of a node's record, where it is a file.
fn check_size(at: u64, sizes: &[u64], node: &Node) -> Result<(), Fault>
    requires low { at < 2 ^ 32 }
    requires rec { node.now.rec < length sizes.now }
    ensures { reported result ≡ damage_of (size_checks at sizes.now node.now) }
{
    if node.kind.is_directory() {
        return Ok(());
    }
    let size = sizes[node.rec as usize];
    ensure(
        size <= LARGEST_SIZE,
        at + 8 * u64::from(node.rec),
        size,
        LARGEST_SIZE,
    )
}

/// Checks the size word of each file of these nodes, in their order. There is one for each record,
/// and the first one stands at this offset of an image, below 2^32.
///
/// Refused by the first one that is greater than 1,048,576 bytes. Takes no memory.
pub fn check_sizes(at: u64, sizes: &[u64], nodes: &[Node]) -> Result<(), Fault>
    requires low { at < 2 ^ 32 }
    requires records { All (λ node. node.rec < length sizes.now) nodes.now }
    ensures { reported result ≡ damage_of (sizes_checks at sizes.now nodes.now) }
{
    for node in nodes {
        check_size(at, sizes, node)?;
    }
    Ok(())
}
