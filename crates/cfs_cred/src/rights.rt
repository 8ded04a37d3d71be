ghost use Rattle.std.specs.Prelude.{◌≡◌};
ghost use Rattle.cfs_cred.specs.Rights.{is_allowed};

use crate::credential::Credential;
use crate::want::Want;

/// The user who passes every test.
const SUPERUSER: u32 = 0;

/// Whether a user has a right on a file of mode `mode` that user `uid` and group `gid` own.
///
/// The mode's last three octal digits are read, and bits above them are passed over. The owner's
/// digit alone decides for the owner, also where it grants less than the others; else the group's
/// digit alone decides for the group, and else the digit of all others (POSIX.1-2017, Base
/// Definitions, section 4.5). User 0 has every right (own).
pub fn allows(mode: u16, uid: u32, gid: u32, credential: Credential, want: Want) -> bool
    ensures decided { result ≡ is_allowed mode uid gid credential want }
{
    if credential.uid == SUPERUSER {
        return true;
    }
    let digits = if credential.uid == uid {
        mode >> 6
    } else if credential.gid == gid {
        mode >> 3
    } else {
        mode
    };
    want.is_granted_by(digits)
}
