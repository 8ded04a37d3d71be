//! One copy of the table.
ghost use Rattle.std.specs.Prelude.{◌≡◌, length, option_copied};
ghost use Rattle.cfs_dir.specs.Tree.{IsTree};
ghost use Rattle.cfs_dir.specs.Words.{row_of, table_words};
ghost use Rattle.cfs_pmem.specs.Faults.{HasCause};
ghost use Rattle.cfs_pmem.specs.Images.{words_of};
ghost use Rattle.cfs_ckpt.specs.Tables.{WritesTable};

use cfs_dir::{NODE_WORDS, Node, RECORDS, Tree, node_words};
use cfs_pmem::{DeviceFault, Power, Region, write_words};

/// How many words a table has: the next inode number, and twelve for each of 256 records.
pub const TABLE_WORDS: u32 = 3073;

/// The words of a record, which are 0 where it is free.
fn record_words(node: Option<&Node>) -> [u64; NODE_WORDS]
    ensures { result ≡ row_of (option_copied node.entry) }
{
    match node {
        Some(node) => node_words(node),
        None => [0; NODE_WORDS],
    }
}

/// Writes the table of a tree word by word and persists it: 3,074 writing steps, or as many as
/// there are up to the one that fails.
pub(crate) fn write_table<R: Region, P: Power>(
    region: &mut R,
    power: &mut P,
    tree: &Tree,
) -> Result<(), DeviceFault>
    requires { length (words_of (R.seen region.old)) ≡ TABLE_WORDS }
    ensures written { WritesTable R.obeys_power (table_words tree.now) result
        (P.asked power.old) (R.seen region.old) (P.asked power.new) (R.seen region.new) }
    ensures tree { IsTree tree.now.nodes tree.now.next }
    ensures cause { HasCause (R.faults region.old) (R.faults region.new) result }
{
    region.write(power, 0, tree.next())?;
    for rec in 0..RECORDS as u32 {
        let row = record_words(tree.node(rec));
        write_words(region, power, 1 + NODE_WORDS as u32 * rec, &row)?;
    }
    region.persist(power)?;
    Ok(())
}
