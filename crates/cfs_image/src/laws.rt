//! What holds of every image, as contracts of functions that do nothing.
ghost use Rattle.cfs_image.specs.Laws.{ImagesAreSound, ImagesStand, ImagesTell};

/// Each object stands in its range of an image, and the header and these ranges are all that there
/// is.
pub fn images_stand()
    ensures { ImagesStand }
{}

/// The image of a store passes all checks.
pub fn images_are_sound()
    ensures { ImagesAreSound }
{}

/// Two stores with one image hold the same words and bytes: so what is read of a written image is
/// what was written.
pub fn images_tell()
    ensures { ImagesTell }
{}
