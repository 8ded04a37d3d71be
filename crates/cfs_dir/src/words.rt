//! A node as words.

ghost use Rattle.std.specs.Prelude.{◌≡◌, ◌+◌, ◌≤◌, drop};
ghost use Rattle.byteorder.specs.Endian.{little_number};
ghost use Rattle.cfs_dir.specs.Words.{kind_word, node_words};

use crate::kind::Kind;
use crate::name::LONGEST_NAME;
use crate::node::Node;
use byteorder::{ByteOrder, LittleEndian};

/// How many words a node takes in a table and in a journal record.
pub const NODE_WORDS: usize = 12;

/// The word in eight bytes of a name, the first byte lowest.
fn word_at(bytes: &[u8; LONGEST_NAME], from: usize) -> u64
    requires { from + 8 ≤ LONGEST_NAME }
    ensures { result ≡ little_number 8 (drop from bytes.now) }
{
    LittleEndian::read_u64(&bytes[from..])
}

fn kind_word(kind: Kind) -> u64
    ensures { result ≡ kind_word kind }
{
    match kind {
        Kind::File => 1,
        Kind::Directory => 2,
    }
}

/// The twelve words of a node: its inode number, its directory's, its kind, mode, owner and group,
/// the length of its name, and five words with the bytes of its name, filled up with
/// zero bytes (own).
pub fn node_words(node: &Node) -> [u64; NODE_WORDS]
    ensures { result ≡ node_words node.now }
{
    let name = node.name.padded();
    [
        node.ino,
        node.parent,
        kind_word(node.kind),
        u64::from(node.mode),
        u64::from(node.uid),
        u64::from(node.gid),
        node.name.as_bytes().len() as u64,
        word_at(&name, 0),
        word_at(&name, 8),
        word_at(&name, 16),
        word_at(&name, 24),
        word_at(&name, 32),
    ]
}
