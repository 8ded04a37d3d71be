//! The size word is set.

ghost use Rattle.std.specs.Prelude.{◌≡◌, ◌<◌, length};
ghost use Rattle.cfs_pmem.specs.Images.{words_of};
ghost use Rattle.cfs_inode.specs.Finishing.{SetsSize, is_right};

use crate::size_answer::SizeAnswer;
use cfs_pmem::{Power, Region};

/// Whether the size word is this in every image.
pub(crate) fn is_right(size: (u64, bool), wanted: u64) -> bool
    ensures { result ≡ is_right size.0 size.1 wanted }
{
    size.1 && size.0 == wanted
}

/// Sets the size word, in two writing steps; none where it is right in every image.
pub(crate) fn set_size<R: Region, P: Power>(
    region: &mut R,
    power: &mut P,
    is_right: bool,
    wanted: u64,
) -> SizeAnswer
    requires { 0 < length (words_of (R.seen region.old)) }
    ensures { SetsSize R.obeys_power is_right wanted result
        (P.asked power.old) (R.seen region.old) (P.asked power.new) (R.seen region.new) }
{
    if is_right {
        return SizeAnswer::Set;
    }
    match region.write(power, 0, wanted) {
        Ok(()) => match region.persist(power) {
            Ok(()) => SizeAnswer::Set,
            Err(_) => SizeAnswer::Unkept,
        },
        Err(_) => SizeAnswer::Unwritten,
    }
}
