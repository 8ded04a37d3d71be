//! Lists of places.
ghost use Rattle.std.specs.Prelude.{OnOk, [], ◌∷◌, ◌++◌, ◌≡◌, if◌then◌else◌};

use cfs_file::NoMemory;

/// Puts a place at the end of a list, where it is wanted there.
pub(crate) fn note_where(list: &mut Vec<usize>, place: usize, wanted: bool) -> Result<(), NoMemory>
    ensures { OnOk result
        (list.new.items ≡ list.old.items ++ (if wanted then place ∷ [] else [])) }
{
    if wanted {
        list.push(place)?;
    }
    Ok(())
}
