ghost use Rattle.std.specs.Prelude.{◌≡◌, ◌<◌, nat_lt, length};
ghost use Rattle.std.specs.List.{list_any};
ghost use Rattle.cfs_dir.specs.Name.{is_dots};
ghost use Rattle.cfs_dir.specs.Rename.{paths_refusal};
ghost use Rattle.cfs_dir.specs.Step.{is_too_long, path_refusal};

use crate::name::LONGEST_NAME;
use crate::path::Component;
use crate::posix::Posix;

/// The greatest number of names in a path.
pub const DEEPEST: usize = 16;

/// The refusal that a path alone gives, before the tree is looked at: a name `.` or `..` with
/// InvalidArgument, and a name of more than 40 bytes or more than 16 names with NameTooLong.
pub fn path_refusal(names: &[Component]) -> Option<Posix>
    ensures { result ≡ path_refusal names.now }
{
    if has_dots(names) {
        return Some(Posix::InvalidArgument);
    }
    if is_too_long(names) {
        return Some(Posix::NameTooLong);
    }
    None
}

/// The refusal that the two paths of a rename alone give: a name `.` or `..` or the root with
/// InvalidArgument, and too long a name or too many with NameTooLong.
pub fn paths_refusal(from: &[Component], to: &[Component]) -> Option<Posix>
    ensures { result ≡ paths_refusal from.now to.now }
{
    if has_dots(from) || has_dots(to) || from.is_empty() || to.is_empty() {
        return Some(Posix::InvalidArgument);
    }
    if is_too_long(from) || is_too_long(to) {
        return Some(Posix::NameTooLong);
    }
    None
}

fn is_too_long(names: &[Component]) -> bool
    ensures { result ≡ is_too_long names.now }
{
    has_long_name(names) || names.len() > DEEPEST
}

fn has_dots(names: &[Component]) -> bool
    ensures { result ≡ list_any is_dots names.now }
{
    names.iter().any(|name| name.is_dots())
}

fn has_long_name(names: &[Component]) -> bool
    ensures { result ≡ list_any (λ name. nat_lt LONGEST_NAME (length name)) names.now }
{
    names
        .iter()
        .any(|name| name.as_bytes().len() > LONGEST_NAME)
}
