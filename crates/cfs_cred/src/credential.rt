/// The user and the group for whom a call is made.
#[derive(Clone, Copy, Debug, PartialEq, Eq, Hash)]
pub struct Credential {
    /// The user number; 0 is the superuser.
    pub uid: u32,
    /// The group number.
    pub gid: u32,
}
