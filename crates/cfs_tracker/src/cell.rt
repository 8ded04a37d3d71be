//! A block of the file, as far as the medium has one.

/// What stands for a block of the file. `B` is a block of the medium.
#[derive(Debug, Drop)]
pub enum Cell<B> {
    /// No block is tagged for it.
    Hole,
    /// This block is tagged for it in every image.
    Home(B),
    /// This block is tagged for it in some images: its last tag, or the last try to take that away,
    /// failed.
    Unsure(B),
    /// The job of the change at this place has the block.
    Lent(u64),
    /// The block is in the caller's hands to be tagged or given up: tagged in every image, or in
    /// some.
    Moving(bool),
}
