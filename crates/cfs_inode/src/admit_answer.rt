//! What an admission answers.

/// What an admission answers. `S` is the slots of a staged request, which may come back.
#[derive(Drop)]
pub enum AdmitAnswer<S> {
    /// It has this place. It stands at `offset`, a truncate at its length, and has `count` bytes;
    /// so many earlier changes became no-ops.
    Admitted {
        place: u64,
        offset: u64,
        count: u64,
        marked: u64,
    },
    /// The file would be too long. It has this length.
    TooBig {
        length: u64,
        staged: S,
    },
    /// It takes so many blocks, and the stock has fewer.
    NeedBlocks {
        need: u64,
        staged: S,
    },
    /// A device fault; without its slots the request is in doubt.
    Failed {
        staged: Option<S>,
    },
}
