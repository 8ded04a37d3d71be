//! What holds of every staged request, as a contract of a function that does nothing.
ghost use Rattle.std.specs.Prelude.{◌∷◌, map};
ghost use Rattle.cfs_pmem.specs.Images.{words_of, IsSure};
ghost use Rattle.cfs_slot.specs.Regions.{of_staged, tails_of_staged, words_in};
ghost use Rattle.cfs_slot.specs.Words.{request_of};
ghost use Rattle.cfs_long.specs.Whole.{StandsWhole};

use cfs_pmem::Region;
use cfs_slot::Staged;

/// A staged request whose offset is not unsure stands whole in every image of its slots together.
pub fn staged_stands_whole<R: Region + Drop>(staged: &Staged<R>)
    requires { IsSure (R.seen (of_staged staged.now)) }
    ensures { StandsWhole
        (request_of (words_of (R.seen (of_staged staged.now)))
        (words_in R.seen (tails_of_staged staged.now)))
        (map R.seen (of_staged staged.now ∷ tails_of_staged staged.now)) }
{}
