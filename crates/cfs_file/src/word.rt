//! A word of a command line or of a script, and the name of a file on a shelf.

ghost use Rattle.std.specs.Prelude.{◌≡◌, IfOk};

use crate::{Bytes, NoMemory};
use std::alloc::Global;
use std::marker::Model;

/// A word: bytes without an encoding. Contracts see their list.
#[derive(Debug, Drop, Clone)]
pub struct Word {
    bytes: Bytes,
}

impl Model for Word {
    ghost use Rattle.std.specs.Prelude.{List, ℕ};

    ghost Value = { List ℕ };

    ghost view = { λ w. w.bytes };
}

impl Word {
    /// The word with the bytes of `vec`. Takes no memory.
    pub fn from_vec(vec: Vec<u8>) -> Word
        ensures { result ≡ vec.items }
    {
        Word {
            bytes: Bytes::from_vec(vec),
        }
    }

    /// Gives the word's bytes back as a vector. Takes no memory.
    pub fn into_vec(self) -> Vec<u8>
        ensures { result.items ≡ self }
    {
        let Word { bytes } = self;
        bytes.into_vec()
    }

    /// A copy of `bytes`.
    pub fn from_slice(alloc: Global, bytes: &[u8]) -> Result<Word, NoMemory>
        ensures { IfOk result (λ copy. copy ≡ bytes.now) }
    {
        let bytes = Bytes::from_slice(alloc, bytes)?;
        Ok(Word { bytes })
    }

    /// The word's bytes.
    pub fn as_slice(&self) -> &[u8]
        ensures { result.now ≡ self.now }
    {
        self.bytes.as_slice()
    }
}

/// Whether the bytes are the same.
impl PartialEq for Word {
    ghost use Rattle.std.specs.Str.{bytes_eq};
    ghost use Rattle.std.proofs.Common.{rules};

    ghost eq = { bytes_eq };

    ghost laws = { Prim.search rules };

    fn eq(&self, other: &Word) -> bool {
        self.bytes == other.bytes
    }
}

impl Eq for Word {
    ghost use Rattle.std.proofs.Common.{rules};

    ghost laws = { Prim.search rules };
}
