use thiserror::Error;

/// Why a call is refused, by the error numbers of POSIX.1-2017, System Interfaces, section 2.3. An
/// error is displayed by its name there.
#[derive(Clone, Copy, Debug, PartialEq, Eq, Hash, Error)]
pub enum Posix {
    /// EACCES: a right is lacking.
    #[error("EACCES")]
    PermissionDenied,
    /// ENOENT: a name of the path is not there.
    #[error("ENOENT")]
    NotFound,
    /// EEXIST: the name that is to be made is there.
    #[error("EEXIST")]
    AlreadyExists,
    /// ENOTDIR: a name that has to be a directory's is a file's.
    #[error("ENOTDIR")]
    NotADirectory,
    /// EISDIR: a name that has to be a file's is a directory's.
    #[error("EISDIR")]
    IsADirectory,
    /// ENOTEMPTY: the directory that is to be removed has a child.
    #[error("ENOTEMPTY")]
    DirectoryNotEmpty,
    /// EINVAL: the call makes no sense, as for the names `.` and `..` (own).
    #[error("EINVAL")]
    InvalidArgument,
    /// ENAMETOOLONG: a name of more than 40 bytes, or a path of more than 16 names.
    #[error("ENAMETOOLONG")]
    NameTooLong,
    /// EMFILE: no more file can be open.
    #[error("EMFILE")]
    TooManyOpenFiles,
    /// ENFILE: no record or no inode number is left for a new node.
    #[error("ENFILE")]
    TooManyFiles,
    /// EBADF: the descriptor is not open, or not for this.
    #[error("EBADF")]
    BadDescriptor,
    /// EFBIG: the file would be too long.
    #[error("EFBIG")]
    FileTooLarge,
}
