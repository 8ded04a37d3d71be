//! All checks of an image.
ghost use Rattle.std.specs.Prelude.{◌≡◌, IfErr, IfOk, None, OnOk};
ghost use Rattle.cfs_fsck.specs.Images.{image_checks, image_words};
ghost use Rattle.cfs_fsck.specs.Refusals.{NamesFault};
ghost use Rattle.cfs_fsck.specs.Reports.{report_of};
ghost use Rattle.cfs_image.specs.Checks.{damage_of};

use crate::count::count;
use crate::report::Report;
use crate::survey::survey_image;
use cfs_image::ImageRefusal;
use std::alloc::Global;

/// Makes all checks of an image, and counts what its store holds.
///
/// `Damaged` names the first check that fails: of the length and the header, of the table, the
/// journal, the sizes, the tags and the slots, with its offset in the image. `NoMemory` comes for
/// images alone whose length and header are sound. Takes memory for the words that it looks at.
pub fn check_image(alloc: Global, bytes: &[u8]) -> Result<Report, ImageRefusal>
    ensures sound { OnOk result (damage_of (image_checks bytes.now) ≡ None) }
    ensures report { IfOk result (λ report. report ≡ report_of (image_words bytes.now)) }
    ensures err { IfErr result (NamesFault bytes.now) }
{
    let (words, survey) = survey_image(alloc, bytes)?;
    Ok(count(alloc, &words, &survey)?)
}
