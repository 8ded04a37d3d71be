ghost use Rattle.std.specs.Prelude.{◌≡◌, ◌≤◌, ◌↔◌, ◌∷◌, ◌++◌, [], ℕ, List, Err, IsTrue, IsSome, IfSome, IfOk, OnOk, length, drop, position};
ghost use Rattle.std.specs.List.{before_first, position_or_len};
ghost use Rattle.cfs_dir.specs.Name.{is_dots};
ghost use Rattle.cfs_dir.specs.Path.{ArePathNames, BeginsWithSlash, IsPathName, IsPathText, is_slash};

use crate::name_byte::are_name_bytes;
use std::alloc::{AllocError, Global};
use std::marker::Model;
use thiserror::Error;

/// The greatest number of names in a path's text; the tree refuses some of these paths.
pub const MOST_NAMES: usize = 64;

/// The greatest length of a name in a path's text, in bytes.
pub const LONGEST_COMPONENT: usize = 200;

/// A name of a path: 1 to 200 letters, digits, `.`, `_` and `-`.
#[derive(Clone, Debug, Drop)]
pub struct Component {
    bytes: Vec<u8>,
}

impl Model for Component {
    ghost use Rattle.std.specs.Prelude.{ℕ, List};
    ghost use Rattle.cfs_dir.specs.Path.{IsPathName};

    ghost Value = { List ℕ };

    ghost view = { λ c. c.bytes.items };

    ghost invariant = { λ c. IsPathName c.bytes.items };
}

impl Component {
    /// The bytes of the name.
    pub fn as_bytes(&self) -> &[u8]
        ensures same { result.now ≡ self.now }
        ensures readable { IsPathName self.now }
    {
        self.bytes.as_slice()
    }

    /// Whether this is `.` or `..`.
    pub fn is_dots(&self) -> bool
        ensures { result ≡ is_dots self.now }
    {
        let bytes = self.bytes.as_slice();
        bytes == b".".as_slice() || bytes == b"..".as_slice()
    }
}

impl PartialEq for Component {
    ghost use Rattle.std.specs.Str.{bytes_eq};
    ghost use Rattle.std.proofs.Common.{rules};

    ghost eq = { bytes_eq };

    ghost laws = { Prim.search rules };

    fn eq(&self, other: &Component) -> bool {
        self.as_bytes() == other.as_bytes()
    }
}

impl Eq for Component {
    ghost use Rattle.std.proofs.Common.{rules};

    ghost laws = { Prim.search rules };
}

/// A path from the root, by its names; the root has none.
#[derive(Clone, Debug, Drop)]
pub struct Path {
    names: Vec<Component>,
}

impl Model for Path {
    ghost use Rattle.std.specs.Prelude.{ℕ, List};
    ghost use Rattle.cfs_dir.specs.Path.{ArePathNames};

    ghost Value = { List (List ℕ) };

    ghost view = { λ p. p.names.items };

    ghost invariant = { λ p. ArePathNames p.names.items };
}

impl PartialEq for Path {
    ghost use Rattle.std.specs.Cmp.{partial_equiv_from_equiv};
    ghost use Rattle.cfs_dir.specs.Path.{same_names, same_names-laws};

    ghost eq = { same_names };

    ghost laws = { partial_equiv_from_equiv same_names-laws };

    fn eq(&self, other: &Path) -> bool {
        self.names.as_slice() == other.names.as_slice()
    }
}

impl Eq for Path {
    ghost use Rattle.cfs_dir.specs.Path.{same_names-laws};

    ghost laws = { same_names-laws };
}

/// Why bytes are no path.
#[derive(Clone, Copy, Debug, PartialEq, Eq, Error)]
pub enum PathRefusal {
    /// They are not `/`, and not one to 64 times `/` and a name.
    #[error("not a path")]
    Malformed,
    /// There was no memory for the path.
    #[error("out of memory")]
    NoMemory,
}

impl From<AllocError> for PathRefusal {
    ghost use Rattle.std.specs.Prelude.{◌≡◌};
    ghost use Rattle.cfs_dir.specs.declared.path.PathRefusal.TheVariants.{NoMemory};

    ghost from_gives = { λ _ refusal. refusal ≡ NoMemory };

    fn from(_error: AllocError) -> PathRefusal {
        PathRefusal::NoMemory
    }
}

impl Path {
    /// The path of these bytes: `/`, or one to 64 times `/` and a name of 1 to 200 letters, digits,
    /// `.`, `_` and `-` (own).
    pub fn parse(alloc: Global, text: &[u8]) -> Result<Self, PathRefusal>
        ensures parsed { IfOk result (IsPathText text.now) }
        ensures malformed { result ≡ Err PathRefusal.Malformed →
            (names : List (List ℕ)) → ¬ IsPathText text.now names }
    {
        let mut names = Vec::new(alloc);
        if is_root(text) {
            return Ok(Path { names });
        }
        let mut rest = text;
        while let Some((name, after)) = split_name(rest) {
            if names.len() >= MOST_NAMES {
                return Err(PathRefusal::Malformed);
            }
            if !is_path_name(name) {
                return Err(PathRefusal::Malformed);
            }
            push_name(alloc, &mut names, name)?;
            rest = after;
        }
        if names.is_empty() {
            return Err(PathRefusal::Malformed);
        }
        if !rest.is_empty() {
            return Err(PathRefusal::Malformed);
        }
        Ok(Path { names })
    }

    /// The names, in order.
    pub fn names(&self) -> &[Component]
        ensures same { result.now ≡ self.now }
        ensures readable { ArePathNames self.now }
    {
        self.names.as_slice()
    }
}

/// Whether this is the path of the root, `/`.
fn is_root(text: &[u8]) -> bool
    ensures { IsTrue result ↔ (text.now ≡ 47 ∷ []) }
{
    text == b"/".as_slice()
}

/// Adds a name to those that were read.
fn push_name(alloc: Global, names: &mut Vec<Component>, name: &[u8]) -> Result<(), AllocError>
    requires { IsPathName name.now }
    ensures { OnOk result (names.new.items ≡ names.old.items ++ name.now ∷ []) }
{
    let bytes = Vec::from_slice(alloc, name)?;
    names.push(Component { bytes })?;
    Ok(())
}

/// The name behind the `/` that a text begins with, and the text behind that name; none where the
/// text begins otherwise.
fn split_name(text: &[u8]) -> Option<(&[u8], &[u8])>
    ensures begins { IsSome result ↔ BeginsWithSlash text.now }
    ensures parts { IfSome result (λ parts. text.now ≡ 47 ∷ (parts.0.now ++ parts.1.now)) }
    ensures name { IfSome result (λ parts. parts.0.now ≡ before_first is_slash (drop 1 text.now)) }
    ensures after { IfSome result (λ parts.
        parts.1.now ≡ drop (position_or_len is_slash (drop 1 text.now)) (drop 1 text.now)) }
{
    let (first, tail) = text.split_first()?;
    if *first != b'/' {
        return None;
    }
    Some(tail.split_at(slash_or_end(tail)))
}

/// The place of the first `/`, or the length where there is none.
fn slash_or_end(bytes: &[u8]) -> usize
    ensures place { result ≡ position_or_len is_slash bytes.now }
    ensures within { result ≤ length bytes.now }
{
    first_slash(bytes).unwrap_or(bytes.len())
}

fn first_slash(bytes: &[u8]) -> Option<usize>
    ensures { result ≡ position is_slash bytes.now }
{
    bytes.iter().position(|byte| *byte == b'/')
}

/// Whether these bytes are a name of a path.
fn is_path_name(bytes: &[u8]) -> bool
    ensures { IsTrue result ↔ IsPathName bytes.now }
{
    !bytes.is_empty() && bytes.len() <= LONGEST_COMPONENT && are_name_bytes(bytes)
}
