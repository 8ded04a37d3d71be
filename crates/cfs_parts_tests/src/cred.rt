use cfs_cred::{Credential, Want, allows};

const OWNER: Credential = Credential { uid: 10, gid: 20 };

const MEMBER: Credential = Credential { uid: 11, gid: 20 };

const OTHER: Credential = Credential { uid: 11, gid: 21 };

const SUPERUSER: Credential = Credential { uid: 0, gid: 21 };

/// Each row: a mode of a file of user 10 and group 20, a user, and the rights that the user has.
#[test]
fn rights_of_each_class(rt: HostRuntime) {
    let rows = [
        (0o754, OWNER, "rws"),
        (0o754, MEMBER, "r-s"),
        (0o754, OTHER, "r--"),
        (0o754, SUPERUSER, "rws"),
        (0o007, OWNER, "---"),
        (0o007, MEMBER, "---"),
        (0o007, OTHER, "rws"),
        (0o070, OWNER, "---"),
        (0o070, MEMBER, "rws"),
        (0o070, OTHER, "---"),
        (0o000, SUPERUSER, "rws"),
        (0o421, OWNER, "r--"),
        (0o421, MEMBER, "-w-"),
        (0o421, OTHER, "--s"),
    ];
    for (mode, credential, want) in rows {
        let read = allows(mode, 10, 20, credential, Want::Read);
        let write = allows(mode, 10, 20, credential, Want::Write);
        let search = allows(mode, 10, 20, credential, Want::Search);
        assert_eq!(rt;
            (read, write, search),
            (
                want.starts_with('r'),
                want.contains('w'),
                want.ends_with('s')
            ),
            "{mode:o} {credential:?}"
        );
    }
}
