//! The records that are free.
ghost use Rattle.std.specs.Prelude.{◌≡◌, ◌<◌, ◌==◌, ◌||◌, ◌&&◌, IfSome, None, false, not, true};
ghost use Rattle.cfs_grants.specs.Free.{is_free};

/// How many words there are, of 64 records each.
const WORDS: usize = 4;

/// The records, of 256, that no node and no removed file has.
#[derive(Clone, Copy, Debug, Default, PartialEq, Eq)]
pub struct FreeRecords {
    words: [u64; WORDS],
}

impl FreeRecords {
    /// None is free.
    pub fn none() -> FreeRecords
        ensures { (rec : _) → rec < 256 → is_free result rec ≡ false }
    {
        FreeRecords { words: [0; WORDS] }
    }

    /// The lowest free record.
    pub fn lowest(&self) -> Option<u32>
        ensures within { IfSome result (λ rec. rec < 256) }
        ensures free { IfSome result (λ rec. is_free self.now rec ≡ true) }
        ensures lowest { IfSome result (λ rec.
            (other : _) → other < rec → is_free self.now other ≡ false) }
        ensures none { result ≡ None → (rec : _) → rec < 256 → is_free self.now rec ≡ false }
    {
        for place in 0..WORDS {
            let word = self.words[place];
            if word != 0 {
                return Some(place as u32 * 64 + word.trailing_zeros());
            }
        }
        None
    }

    /// Frees a record.
    pub fn give(&mut self, rec: u32)
        requires { rec < 256 }
        ensures { (other : _) → other < 256 →
            is_free self.new other ≡ (other == rec) || is_free self.old other }
    {
        self.words[rec as usize / 64] |= 1 << (rec % 64);
    }

    /// Takes a record.
    pub fn take(&mut self, rec: u32)
        requires { rec < 256 }
        ensures { (other : _) → other < 256 →
            is_free self.new other ≡ not (other == rec) && is_free self.old other }
    {
        self.words[rec as usize / 64] &= !(1 << (rec % 64));
    }
}
