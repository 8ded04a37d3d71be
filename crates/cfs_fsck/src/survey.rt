//! The words of an image, and what they tell.
ghost use Rattle.std.specs.Prelude.{◌≡◌, IfErr, IfOk, None, OnOk, length};
ghost use Rattle.cfs_dir.specs.Tree.{IsTree};
ghost use Rattle.cfs_fsck.specs.Images.{image_checks, image_words};
ghost use Rattle.cfs_fsck.specs.Refusals.{NamesFault, refusal_as};
ghost use Rattle.cfs_image.specs.Checks.{IsSound, damage_of};
ghost use Rattle.cfs_survey.specs.Live.{in_order, live_entries};
ghost use Rattle.cfs_survey.specs.Mapped.{IsBlockMap};
ghost use Rattle.cfs_survey.specs.SoFar.{found_tree};
ghost use Rattle.cfs_survey.specs.Surveys.{AreWhole, recovered_tree, words_of};

use crate::words::read_words;
use cfs_image::{ImageRefusal, Version, check_header};
use cfs_survey::{StoreWords, Survey, SurveyRefusal, survey_words};
use std::alloc::Global;

/// Makes all checks of an image, and gives the words that it looked at and what they tell.
///
/// `Damaged` names the first check that fails: of the length and the header, of the table, the
/// journal, the sizes, the tags and the slots, with its offset in the image. `NoMemory` comes for
/// images alone whose length and header are sound. Takes memory for the words that it looks at.
pub fn survey_image(alloc: Global, bytes: &[u8]) -> Result<(StoreWords, Survey), ImageRefusal>
    ensures header { OnOk result (IsSound bytes.now) }
    ensures sound { OnOk result (damage_of (image_checks bytes.now) ≡ None) }
    ensures words { IfOk result (λ found. words_of found.0 ≡ image_words bytes.now) }
    ensures whole { IfOk result (λ found. AreWhole (words_of found.0)) }
    ensures tree { IfOk result (λ found.
        found_tree found.1.tree ≡ recovered_tree (image_words bytes.now)) }
    ensures stands { IfOk result (λ found.
        IsTree found.1.tree.nodes.items found.1.tree.next) }
    ensures blocks { IfOk result (λ found. IsBlockMap found.1.tree.nodes.items
        found.0.tags.items (length found.0.tags.items) found.1.blocks) }
    ensures entries { IfOk result (λ found. found.1.entries.items ≡
        in_order (live_entries found.1.tree.nodes.items found.0.slots.items)) }
    ensures err { IfErr result (NamesFault bytes.now) }
{
    let size = check_header(bytes, Version::Present)?;
    let words = read_words(alloc, bytes, size)?;
    match survey_words(alloc, &words) {
        Ok(survey) => Ok((words, survey)),
        Err(refusal) => Err(refusal_of(refusal)),
    }
}

/// The refusal of an image whose words are refused so.
fn refusal_of(refusal: SurveyRefusal) -> ImageRefusal
    ensures { result ≡ refusal_as refusal }
{
    match refusal {
        SurveyRefusal::Damaged(fault) => ImageRefusal::Damaged {
            offset: fault.offset,
            found: fault.found,
            against: fault.against,
        },
        SurveyRefusal::NoMemory => ImageRefusal::NoMemory,
    }
}
