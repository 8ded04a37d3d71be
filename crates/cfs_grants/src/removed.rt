//! The records of removed files.
ghost use Rattle.std.specs.Prelude.{◌≡◌, ◌<◌, IfOk, IfSome, None, Some, is_some, length, replicate, set, true};
ghost use Rattle.cfs_grants.specs.Removed.{first_dying, given_to, is_dying, kept_again, row_of};

use crate::grants::Grants;
use std::alloc::{AllocError, Global};
use std::marker::Model;

/// How many records there are.
pub const RECORDS: usize = 256;

/// A file that has no name any more, while a grant or a purge may still have it.
#[derive(Clone, Copy, Debug, PartialEq, Eq)]
pub struct Removed {
    /// The inode number.
    pub ino: u64,
    /// The number of the pass that purges it.
    pub by: Option<u64>,
}

/// The removed files, each at its record, which no node may take before it is freed.
#[derive(Debug, Drop)]
pub struct RemovedFiles {
    rows: Vec<Option<Removed>>,
}

impl Model for RemovedFiles {
    ghost use Rattle.std.specs.Prelude.{◌≡◌, List, Option, length};
    ghost use Rattle.cfs_grants.specs.declared.removed.Removed.{Removed as OneRemoved};

    ghost Value = { List (Option OneRemoved) };

    ghost view = { λ r. r.rows.items };

    ghost invariant = { λ r. length r.rows.items ≡ 256 };
}

impl RemovedFiles {
    /// No removed file. Takes memory for all records.
    pub fn new(alloc: Global) -> Result<RemovedFiles, AllocError>
        ensures { IfOk result (λ files. files ≡ replicate 256 None) }
    {
        Ok(RemovedFiles {
            rows: vec![in alloc; None; RECORDS]?,
        })
    }

    /// The removed file of a record.
    pub fn get(&self, rec: u32) -> Option<Removed>
        ensures { result ≡ row_of self.now rec }
    {
        *self.rows.get(rec as usize)?
    }

    /// Notes that the file of a record is removed. It takes no memory.
    pub fn add(&mut self, rec: u32, ino: u64)
        requires { rec < 256 }
        ensures { self.new ≡ set self.old rec (Some record { ino = ino; by = None }) }
    {
        self.rows[rec as usize] = Some(Removed { ino, by: None });
    }

    /// Gives the removed file of the lowest record to a pass that purges it: one that no pass has
    /// and no grant is for. None exactly where there is none.
    pub fn dying(&mut self, by: u64, grants: &Grants) -> Option<(u32, u64)>
        ensures found { result ≡ first_dying 0 grants.now self.old }
        ensures given { self.new ≡ given_to by result self.old }
    {
        let (rec, ino) = first_dying(&self.rows, grants)?;
        self.rows[rec as usize] = Some(Removed { ino, by: Some(by) });
        Some((rec, ino))
    }

    /// Frees the record of a file that was purged.
    pub fn freed(&mut self, rec: u32)
        requires { rec < 256 }
        ensures { self.new ≡ set self.old rec None }
    {
        self.rows[rec as usize] = None;
    }

    /// Takes a file back whose purge failed: the next `dying` may give it again.
    pub fn kept(&mut self, rec: u32)
        requires within { rec < 256 }
        requires there { is_some (row_of self.old rec) ≡ true }
        ensures { self.new ≡ set self.old rec (kept_again (row_of self.old rec)) }
    {
        let Some(row) = self.rows[rec as usize] else {
            unreachable!()
        };
        self.rows[rec as usize] = Some(Removed { by: None, ..row });
    }
}

/// The lowest record whose file no pass has and no grant is for, and the file's inode number.
fn first_dying(rows: &[Option<Removed>], grants: &Grants) -> Option<(u32, u64)>
    requires { length rows.now ≡ 256 }
    ensures found { result ≡ first_dying 0 grants.now rows.now }
    ensures within { IfSome result (λ found. found.0 < 256) }
{
    for rec in 0..RECORDS as u32 {
        if let Some(row) = rows[rec as usize]
            && is_dying(&row, grants)
        {
            return Some((rec, row.ino));
        }
    }
    None
}

/// Whether no pass has the file, and no grant is for it.
fn is_dying(row: &Removed, grants: &Grants) -> bool
    ensures { result ≡ is_dying grants.now row.now }
{
    row.by.is_none() && !grants.has_file(row.ino)
}
