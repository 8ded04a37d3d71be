//! What becomes of a size word that is to be set.

/// What becomes of a size word that is to be set.
#[derive(Clone, Copy)]
pub enum SizeAnswer {
    /// It is so in every image.
    Set,
    /// The write failed: it is as it was.
    Unwritten,
    /// The persist failed: in an image it may be so or as it was.
    Unkept,
}
