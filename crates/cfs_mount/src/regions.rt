//! The regions of a store by what they hold.
ghost use Rattle.std.specs.Prelude.{◌≡◌, ◌≤◌, ◌∷◌, [], IfOk, drop, length, take};

use cfs_file::NoMemory;
use cfs_pmem::MemRegion;

/// Where the size words begin among the regions of a store, and where the slots.
const FIRST_SIZE: usize = 67;

const FIRST_SLOT: usize = 323;
/// Where the copies of the table begin, and where the records of the journal.
const FIRST_TABLE: usize = 1;

const FIRST_RECORD: usize = 3;

/// The regions of a store by what they hold, each list in the order of device numbers.
#[derive(Drop)]
pub struct StoreRegions {
    /// The selector.
    pub selector: MemRegion,
    /// The two copies of the table.
    pub tables: Vec<MemRegion>,
    /// The 64 records of the journal.
    pub records: Vec<MemRegion>,
    /// The size words of the 256 records of the tree.
    pub sizes: Vec<MemRegion>,
    /// The slots, 16 for each queue.
    pub slots: Vec<MemRegion>,
}

/// The regions of a store, which stand in the order of device numbers.
pub fn split_regions(mut regions: Vec<MemRegion>) -> Result<StoreRegions, NoMemory>
    requires { 323 ≤ length regions.items }
    ensures selector { IfOk result (λ split. take 1 regions.items ≡ split.selector ∷ []) }
    ensures tables { IfOk result (λ split. split.tables.items ≡ take 2 (drop 1 regions.items)) }
    ensures records { IfOk result (λ split. split.records.items ≡ take 64 (drop 3 regions.items)) }
    ensures sizes { IfOk result (λ split. split.sizes.items ≡ take 256 (drop 67 regions.items)) }
    ensures slots { IfOk result (λ split. split.slots.items ≡ drop 323 regions.items) }
{
    let slots = regions.split_off(FIRST_SLOT)?;
    let sizes = regions.split_off(FIRST_SIZE)?;
    let records = regions.split_off(FIRST_RECORD)?;
    let tables = regions.split_off(FIRST_TABLE)?;
    let Some(selector) = regions.pop() else {
        unreachable!()
    };
    Ok(StoreRegions {
        selector,
        tables,
        records,
        sizes,
        slots,
    })
}
