//! The halves of the requests that look at the tree and change nothing.
ghost use Rattle.std.specs.Prelude.{◌≡◌, ◌<◌, ◌≤◌, IfOk, None, Some};
ghost use Rattle.std.specs.Option.{ForSome};
ghost use Rattle.cfs_dir.specs.Moved.{CanMove, with_move};
ghost use Rattle.cfs_dir.specs.Namespace.{node_at};
ghost use Rattle.cfs_dir.specs.Step.{has_right};
ghost use Rattle.cfs_dir.specs.Tree.{CanJoin, CanLeave};
ghost use Rattle.cfs_requests.specs.Looks.{by_tree, makes, moves, opens, removal_refusal, removes, unlinks};
ghost use Rattle.cfs_requests.specs.Opens.{found, has_access, words_refusal};
ghost use Rattle.cfs_requests.specs.Made.{IfMade};

use crate::name_refusal::NameRefusal;
use crate::opening::Opening;
use cfs_cred::{Credential, Want, allows};
use cfs_dir::{Kind, Moved, Node, Path, Posix, Tree, TreeRefusal, path_refusal, paths_refusal};
use cfs_words::Flags;

/// Finds the file that an open would open at a path, or the one that it would make there in the
/// given record.
///
/// Refused by its words: `x` without `c`, and a name `.` or `..`, with InvalidArgument; too long a
/// name or too many with NameTooLong. Refused by the tree: the refusals of the way; where a node is
/// there, AlreadyExists for `c` and `x`, IsADirectory, and PermissionDenied without a right that the
/// access asks for; where none is, NotFound without `c`, PermissionDenied without the right to write
/// the directory, and TooManyFiles without a record or an inode number.
pub fn look_to_open(
    tree: &Tree,
    credential: Credential,
    path: &Path,
    flags: Flags,
    mode: u16,
    rec: Option<u32>,
) -> Result<Opening, NameRefusal>
    requires permissions { mode ≤ 511 }
    requires free { ForSome rec (λ rec. (rec < 256) × (node_at tree.now.nodes rec ≡ None)) }
    ensures answer { result ≡ opens tree.now credential path.now flags mode rec }
    ensures joins { IfOk result (λ opening. IfMade opening (CanJoin tree.now)) }
{
    if let Some(refusal) = words_refusal(flags, path) {
        return Err(NameRefusal::Words(refusal));
    }
    if flags.create {
        match tree.node_to_make(Kind::File, credential, path, mode, rec) {
            Ok(node) => return Ok(Opening::Made(node)),
            Err(Posix::AlreadyExists) if !flags.exclusive => {}
            Err(refusal) => return Err(NameRefusal::Tree(refusal)),
        }
    }
    look_to_find(tree, credential, path, flags)
}

/// Finds the directory that a `mkdir` would make at a path in the given record.
///
/// Refused as `Tree::mkdir` refuses: by the path's words, or by the tree.
pub fn look_to_make(
    tree: &Tree,
    credential: Credential,
    path: &Path,
    mode: u16,
    rec: Option<u32>,
) -> Result<Node, NameRefusal>
    requires permissions { mode ≤ 511 }
    requires free { ForSome rec (λ rec. (rec < 256) × (node_at tree.now.nodes rec ≡ None)) }
    ensures answer { result ≡ makes tree.now credential path.now mode rec }
    ensures joins { IfOk result (CanJoin tree.now) }
{
    if let Some(refusal) = path_refusal(path.names()) {
        return Err(NameRefusal::Words(refusal));
    }
    match tree.node_to_make(Kind::Directory, credential, path, mode, rec) {
        Ok(node) => Ok(node),
        Err(refusal) => Err(NameRefusal::Tree(refusal)),
    }
}

/// Finds the file that an `unlink` would remove.
///
/// Refused as `Tree::unlink` refuses: by the path's words, or by the tree.
pub fn look_to_unlink(tree: &Tree, credential: Credential, path: &Path) -> Result<Node, NameRefusal>
    ensures answer { result ≡ unlinks tree.now credential path.now }
    ensures leaves { IfOk result (CanLeave tree.now) }
{
    if let Some(refusal) = path_refusal(path.names()) {
        return Err(NameRefusal::Words(refusal));
    }
    match tree.file_to_unlink(credential, path) {
        Ok(node) => Ok(node),
        Err(refusal) => Err(NameRefusal::Tree(refusal)),
    }
}

/// Finds the empty directory that an `rmdir` would remove.
///
/// Refused as `Tree::rmdir` refuses: by the path's words, of which the root is one, or by the tree.
pub fn look_to_remove(tree: &Tree, credential: Credential, path: &Path) -> Result<Node, NameRefusal>
    ensures answer { result ≡ removes tree.now credential path.now }
    ensures leaves { IfOk result (CanLeave tree.now) }
{
    if let Some(refusal) = removal_refusal(path) {
        return Err(NameRefusal::Words(refusal));
    }
    match tree.directory_to_remove(credential, path) {
        Ok(node) => Ok(node),
        Err(refusal) => Err(NameRefusal::Tree(refusal)),
    }
}

/// Finds what a `rename` would move, and what it would replace.
///
/// Refused as `Tree::rename` refuses: by the words of the paths, or by the tree. Where the node
/// stands so already, moving it changes nothing.
pub fn look_to_move(
    tree: &Tree,
    credential: Credential,
    from: &Path,
    to: &Path,
) -> Result<Moved, NameRefusal>
    ensures answer { result ≡ moves tree.now credential from.now to.now }
    ensures moves { IfOk result (CanMove tree.now) }
    ensures itself { IfOk result (λ moved.
        node_at tree.now.nodes moved.node.rec ≡ Some moved.node →
        with_move tree.now moved ≡ tree.now) }
{
    if let Some(refusal) = paths_refusal(from.names(), to.names()) {
        return Err(NameRefusal::Words(refusal));
    }
    match tree.node_to_move(credential, from, to) {
        Ok(moved) => Ok(moved),
        Err(refusal) => Err(NameRefusal::Tree(refusal)),
    }
}

/// The refusal that flags and path alone give.
fn words_refusal(flags: Flags, path: &Path) -> Option<Posix>
    ensures { result ≡ words_refusal flags path.now }
{
    if flags.exclusive && !flags.create {
        return Some(Posix::InvalidArgument);
    }
    path_refusal(path.names())
}

/// The refusal that the path of a removal alone gives.
fn removal_refusal(path: &Path) -> Option<Posix>
    ensures { result ≡ removal_refusal path.now }
{
    let names = path.names();
    if names.is_empty() {
        return Some(Posix::InvalidArgument);
    }
    path_refusal(names)
}

/// Finds the file that is there.
fn look_to_find(
    tree: &Tree,
    credential: Credential,
    path: &Path,
    flags: Flags,
) -> Result<Opening, NameRefusal>
    ensures { result ≡ by_tree (found tree.now credential path.now flags) }
{
    let node = match tree.lookup(credential, path) {
        Ok(node) => node,
        Err(TreeRefusal::Refused(refusal)) => return Err(NameRefusal::Tree(refusal)),
        Err(TreeRefusal::NoMemory) => unreachable!(),
    };
    if node.kind.is_directory() {
        return Err(NameRefusal::Tree(Posix::IsADirectory));
    }
    if !has_access(credential, &node, flags) {
        return Err(NameRefusal::Tree(Posix::PermissionDenied));
    }
    Ok(Opening::Found(node))
}

/// Whether a user has the rights that the access asks for.
fn has_access(credential: Credential, node: &Node, flags: Flags) -> bool
    ensures { result ≡ has_access credential node.now flags }
{
    (!flags.read || has_right(credential, node, Want::Read))
        && (!flags.write || has_right(credential, node, Want::Write))
}

/// Whether a user has a right on a node.
fn has_right(credential: Credential, node: &Node, want: Want) -> bool
    ensures { result ≡ has_right credential node.now want }
{
    allows(node.mode, node.uid, node.gid, credential, want)
}
