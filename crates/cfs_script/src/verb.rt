//! What a caller asks for: the word behind its number.

ghost use Rattle.std.specs.Prelude.{◌≡◌};
ghost use Rattle.cfs_script.specs.Reading.{verb_of, verb_of_bytes, verb_of_files, verb_of_names};

/// What a caller asks for: the word behind its number.
#[derive(Clone, Copy, Debug, PartialEq, Eq)]
pub(crate) enum Verb {
    Open,
    Mkdir,
    Unlink,
    Rmdir,
    Rename,
    Read,
    Write,
    Pread,
    Pwrite,
    TryPwrite,
    Lseek,
    Ftruncate,
    Close,
    Fsync,
    Post,
    Serve,
}

impl Verb {
    /// The verb that the word is.
    pub(crate) fn named(word: &[u8]) -> Option<Verb>
        ensures { result ≡ verb_of word.now }
    {
        if let Some(found) = Verb::of_names(word) {
            return Some(found);
        }
        if let Some(found) = Verb::of_bytes(word) {
            return Some(found);
        }
        Verb::of_files(word)
    }

    #[tactic(auto, unfolding(crate::specs::Reading::verb_of_names))]
    fn of_names(word: &[u8]) -> Option<Verb>
        ensures { result ≡ verb_of_names word.now }
    {
        if word == b"open".as_slice() {
            Some(Verb::Open)
        } else if word == b"mkdir".as_slice() {
            Some(Verb::Mkdir)
        } else if word == b"unlink".as_slice() {
            Some(Verb::Unlink)
        } else if word == b"rmdir".as_slice() {
            Some(Verb::Rmdir)
        } else if word == b"rename".as_slice() {
            Some(Verb::Rename)
        } else {
            None
        }
    }

    #[tactic(auto, unfolding(crate::specs::Reading::verb_of_bytes))]
    fn of_bytes(word: &[u8]) -> Option<Verb>
        ensures { result ≡ verb_of_bytes word.now }
    {
        if word == b"read".as_slice() {
            Some(Verb::Read)
        } else if word == b"write".as_slice() {
            Some(Verb::Write)
        } else if word == b"pread".as_slice() {
            Some(Verb::Pread)
        } else if word == b"pwrite".as_slice() {
            Some(Verb::Pwrite)
        } else if word == b"try_pwrite".as_slice() {
            Some(Verb::TryPwrite)
        } else if word == b"lseek".as_slice() {
            Some(Verb::Lseek)
        } else if word == b"ftruncate".as_slice() {
            Some(Verb::Ftruncate)
        } else {
            None
        }
    }

    #[tactic(auto, unfolding(crate::specs::Reading::verb_of_files))]
    fn of_files(word: &[u8]) -> Option<Verb>
        ensures { result ≡ verb_of_files word.now }
    {
        if word == b"close".as_slice() {
            Some(Verb::Close)
        } else if word == b"fsync".as_slice() {
            Some(Verb::Fsync)
        } else if word == b"post".as_slice() {
            Some(Verb::Post)
        } else if word == b"serve".as_slice() {
            Some(Verb::Serve)
        } else {
            None
        }
    }
}
