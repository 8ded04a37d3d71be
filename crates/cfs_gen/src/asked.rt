//! The requests of a workload, one by one.

ghost use Rattle.std.specs.Prelude.{◌≡◌, ◌≤◌, ◌+◌, ◌<◌, ◌++◌, IfOk, OnOk};
ghost use Rattle.cfs_gen.specs.Draws.{drawn_from, state_after};
ghost use Rattle.cfs_gen.specs.Workload.{form_asked, request_forms};

use crate::draft::Draft;
use crate::drawn::Drawn;
use crate::draws::Draws;
use crate::kind::Kind;
use cfs_file::{Bytes, NoMemory};
use cfs_script::Form;
use std::alloc::Global;

/// Adds the request of this number, from 0 on, and the turn behind it where one is drawn.
pub(crate) fn add_request(
    alloc: Global,
    draft: &mut Draft,
    draws: &mut Draws,
    index: u64,
) -> Result<(), NoMemory>
    ensures forms { OnOk result
        (draft.new ≡ draft.old ++ request_forms index (drawn_from draws.old)) }
    ensures draws { OnOk result (draws.new ≡ state_after draws.old 4) }
{
    let drawn = draws.request();
    let form = form_asked(alloc, Kind::at(index), 1 + index % 8, drawn)?;
    draft.push(form)?;
    if drawn.has_turn {
        draft.push(Form::Turn)?;
    }
    Ok(())
}

/// What a request of the kind asks for. The bytes of caller C are all 64 + C.
fn form_asked(alloc: Global, kind: Kind, caller: u64, drawn: Drawn) -> Result<Form, NoMemory>
    requires { caller ≤ 8 }
    ensures { IfOk result (λ form. form ≡ form_asked kind caller drawn) }
{
    let Drawn {
        fd,
        offset,
        length,
        ..
    } = drawn;
    match kind {
        Kind::Write => {
            let bytes = vec![in alloc; 64 + caller as u8; length as usize]?;
            let bytes = Bytes::from_vec(bytes);
            Ok(Form::Pwrite {
                caller,
                fd,
                offset,
                bytes,
            })
        }
        Kind::Read => Ok(Form::Pread {
            caller,
            fd,
            offset,
            count: length,
        }),
        Kind::Sync => Ok(Form::Fsync { caller, fd }),
    }
}
