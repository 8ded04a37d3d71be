ghost use Rattle.std.specs.Prelude.{◌≡◌, ◌≤◌, ◌<◌, ◌↔◌, IsTrue, IsSome, IfSome, [], length};
ghost use Rattle.cfs_dir.specs.Name.{AreNameBytes, IsName};
ghost use Rattle.cfs_dir.specs.Padding.{padded};

use crate::name_byte::are_name_bytes;
use std::hash::{Hash, Hasher};
use std::marker::Model;

/// The greatest length of a node's name, in bytes.
pub const LONGEST_NAME: usize = 40;

/// The name of a node: at most 40 letters, digits, `.`, `_` and `-`. The root alone has the empty
/// name.
#[derive(Clone, Copy, Debug)]
pub struct Name {
    /// The bytes of the name, and then zero bytes.
    bytes: [u8; LONGEST_NAME],
    len: usize,
}

impl Model for Name {
    ghost use Rattle.std.specs.Prelude.{ℕ, List, length, take};
    ghost use Rattle.cfs_dir.specs.Padding.{IsPadded, padded};

    ghost Value = { List ℕ };

    ghost view = { λ n. take n.len n.bytes };

    ghost invariant = { λ n. IsPadded n.bytes n.len };

    ghost inverse = { λ name. record { bytes = padded name; len = length name } };

    ghost use Rattle.std.proofs.Common.{ap₂};
    ghost use Rattle.cfs_dir.specs.Padding.{padded-name, length-name};

    ghost inverse_ok = { λ n h. ap₂ (λ bytes len. record { bytes = bytes; len = len })
        (padded-name n.bytes n.len h) (length-name n.bytes n.len h) };
}

impl Name {
    /// The name of the root, which has no bytes.
    pub fn empty() -> Self
        ensures { result ≡ [] }
    {
        Name {
            bytes: [0; LONGEST_NAME],
            len: 0,
        }
    }

    /// The name of these bytes; none exactly where they are not 1 to 40 letters, digits, `.`, `_`
    /// and `-`.
    pub fn parse(bytes: &[u8]) -> Option<Self>
        ensures named { IsSome result ↔ IsName bytes.now }
        ensures same { IfSome result (λ name. name ≡ bytes.now) }
    {
        if is_name(bytes) {
            Some(Name::of(bytes))
        } else {
            None
        }
    }

    /// The name of these bytes.
    pub(crate) fn of(bytes: &[u8]) -> Self
        requires short { length bytes.now ≤ LONGEST_NAME }
        requires readable { AreNameBytes bytes.now }
        ensures { result ≡ bytes.now }
    {
        let mut all = [0; LONGEST_NAME];
        all[..bytes.len()].copy_from_slice(bytes);
        Name {
            bytes: all,
            len: bytes.len(),
        }
    }

    /// The bytes of the name, filled up with zero bytes.
    pub(crate) fn padded(&self) -> [u8; LONGEST_NAME]
        ensures { result ≡ padded self.now }
    {
        self.bytes
    }

    /// The bytes of the name.
    pub fn as_bytes(&self) -> &[u8]
        ensures same { result.now ≡ self.now }
        ensures short { length self.now ≤ LONGEST_NAME }
        ensures readable { AreNameBytes self.now }
    {
        &self.bytes[..self.len]
    }
}

/// Whether these bytes are the name of a node that is not the root.
fn is_name(bytes: &[u8]) -> bool
    ensures { IsTrue result ↔ IsName bytes.now }
{
    !bytes.is_empty() && bytes.len() <= LONGEST_NAME && are_name_bytes(bytes)
}

impl PartialEq for Name {
    ghost use Rattle.std.specs.Str.{bytes_eq};
    ghost use Rattle.std.proofs.Common.{rules};

    ghost eq = { bytes_eq };

    ghost laws = { Prim.search rules };

    fn eq(&self, other: &Name) -> bool {
        self.as_bytes() == other.as_bytes()
    }
}

impl Eq for Name {
    ghost use Rattle.std.proofs.Common.{rules};

    ghost laws = { Prim.search rules };
}

impl Hash for Name {
    ghost use Rattle.std.specs.Hash as fed;
    ghost use Rattle.std.specs.Cmp.Rules.{hashing};
    ghost use Rattle.std.proofs.Common.{rules};

    ghost hash_input = { λ name. fed.slice fed.u8 name };

    ghost respects_eq = { Prim.search (hashing, rules) };

    fn hash<H: Hasher>(&self, state: &mut H) {
        self.as_bytes().hash(state);
    }
}
