//! The words of a node by themselves.
ghost use Rattle.std.specs.Prelude.{◌≡◌, ◌<◌, ◌^◌, [], ◌∷◌, IfOk};
ghost use Rattle.std.proofs.Math.ListN.{get_or};
ghost use Rattle.cfs_dir.specs.Words.{node_in};
ghost use Rattle.cfs_image.specs.Checks.{damage_of};
ghost use Rattle.cfs_survey.specs.Faults.{reported};
ghost use Rattle.cfs_survey.specs.Fields.{field_checks, kind_check, kind_in, owner_checks, root_checks};

use crate::fault::{Fault, ensure};
use crate::names::read_name;
use cfs_dir::{Kind, NODE_WORDS, Name, Node};

/// The greatest mode.
const LARGEST_MODE: u64 = 0o777;

/// The greatest number of a user or a group.
const LARGEST_ID: u64 = 4_294_967_295;

/// Who may use a node.
#[derive(Clone, Copy)]
struct Owner {
    mode: u16,
    uid: u32,
    gid: u32,
}

/// The mode, the owner and the group of the node whose words stand at this offset.
fn read_owner(at: u64, words: &[u64; NODE_WORDS]) -> Result<Owner, Fault>
    requires { at < 2 ^ 48 }
    ensures named { reported result ≡ damage_of (owner_checks at words.now) }
    ensures mode { IfOk result (λ owner. owner.mode ≡ get_or words.now 3 0) }
    ensures uid { IfOk result (λ owner. owner.uid ≡ get_or words.now 4 0) }
    ensures gid { IfOk result (λ owner. owner.gid ≡ get_or words.now 5 0) }
{
    let [_, _, _, mode, uid, gid, ..] = *words;
    ensure(mode <= LARGEST_MODE, at + 24, mode, LARGEST_MODE)?;
    ensure(uid <= LARGEST_ID, at + 32, uid, LARGEST_ID)?;
    ensure(gid <= LARGEST_ID, at + 40, gid, LARGEST_ID)?;
    Ok(Owner {
        mode: mode as u16,
        uid: uid as u32,
        gid: gid as u32,
    })
}

/// The kind of the node whose words stand at this offset.
fn read_kind(at: u64, kind: u64) -> Result<Kind, Fault>
    requires { at < 2 ^ 48 }
    ensures named { reported result ≡ damage_of (kind_check at kind ∷ []) }
    ensures kind { IfOk result (λ read. read ≡ kind_in kind) }
{
    match kind {
        1 => Ok(Kind::File),
        2 => Ok(Kind::Directory),
        _ => Err(Fault {
            offset: at + 16,
            found: kind,
            against: 2,
        }),
    }
}

/// The root, by its words, which stand at this offset.
#[tactic(auto, unfolding(crate::specs::Fields::root_checks))]
pub(crate) fn read_root(at: u64, words: &[u64; NODE_WORDS]) -> Result<Node, Fault>
    requires { at < 2 ^ 48 }
    ensures named { reported result ≡ damage_of (root_checks at words.now) }
    ensures node { IfOk result (λ node. node ≡ node_in 0 words.now) }
    ensures root { IfOk result (λ node. node.ino ≡ 1) }
{
    ensure(words[0] == 1, at, words[0], 1)?;
    ensure(words[1] == 1, at + 8, words[1], 1)?;
    ensure(words[2] == 2, at + 16, words[2], 2)?;
    ensure(words[6] == 0, at + 48, words[6], 0)?;
    let owner = read_owner(at, words)?;
    Ok(Node {
        ino: 1,
        parent: 1,
        name: Name::empty(),
        kind: Kind::Directory,
        mode: owner.mode,
        uid: owner.uid,
        gid: owner.gid,
        rec: 0,
    })
}

/// The node of a record that is not the root's, by its words, which stand at this offset.
pub(crate) fn read_node(at: u64, rec: u32, words: &[u64; NODE_WORDS]) -> Result<Node, Fault>
    requires { at < 2 ^ 48 }
    ensures named { reported result ≡ damage_of (field_checks at words.now) }
    ensures node { IfOk result (λ node. node ≡ node_in rec words.now) }
{
    let kind = read_kind(at, words[2])?;
    let owner = read_owner(at, words)?;
    let name = read_name(at, words)?;
    Ok(Node {
        ino: words[0],
        parent: words[1],
        name,
        kind,
        mode: owner.mode,
        uid: owner.uid,
        gid: owner.gid,
        rec,
    })
}
