//! A script, played line by line.

ghost use Rattle.std.specs.Prelude.{◌≡◌, ◌≤◌, IfOk, OnOk, OnErr, IsErrOf, [], ◌∷◌};
ghost use Rattle.cfs_pmem.specs.Faults.{Rose};
ghost use Rattle.cfs_top.specs.declared.play.PlayEnd.TheVariants as ends;
ghost use Rattle.cfs_top.specs.Play.{PlaysAll, PlaysFront};

use crate::out_line::print_line;
use crate::world::World;
use cfs_file::NoMemory;
use cfs_io::{IoFault, Sink, write_all};
use cfs_script::{Line, Script};
use std::alloc::Global;

/// Why a script was not played to its end.
#[derive(Clone, Copy, Debug, PartialEq, Eq)]
pub(crate) enum PlayEnd {
    /// The sink had a fault.
    Output,
    /// Want of memory.
    NoMemory,
}

impl From<NoMemory> for PlayEnd {
    ghost from_gives = { λ _ e. e ≡ ends.NoMemory };

    fn from(_: NoMemory) -> PlayEnd {
        PlayEnd::NoMemory
    }
}

impl From<IoFault> for PlayEnd {
    ghost from_gives = { λ _ e. e ≡ ends.Output };

    fn from(_: IoFault) -> PlayEnd {
        PlayEnd::Output
    }
}

/// Plays the script's lines in order, and writes what they answer. Costs the bytes of the script
/// and of the output. A failure has written some front of the whole text.
pub(crate) fn play_script<K: Sink>(
    alloc: Global,
    world: &mut World,
    script: &Script,
    output: &mut K,
) -> Result<(), PlayEnd>
    ensures whole { OnOk result (PlaysAll world.old script.now world.new
        (K.written output.old) (K.written output.new)) }
    ensures front { OnErr result (PlaysFront world.old script.now
        (K.written output.old) (K.written output.new)) }

    // It gives up only for a fault of the sink, and passes none over.
    ensures output { IsErrOf result PlayEnd.Output →
        Rose (K.faults output.old) (K.faults output.new) }
    ensures later { K.faults output.old ≤ K.faults output.new }
    ensures kept { OnOk result (K.faults output.new ≡ K.faults output.old) }
    ensures kept_want { IsErrOf result PlayEnd.NoMemory →
        K.faults output.new ≡ K.faults output.old }
{
    'lines: for line in script.lines() {
        play_line(alloc, world, line, output)?;
    }
    Ok(())
}

/// Plays one line, and writes what it answers. A failure has written some front of the line's text.
fn play_line<K: Sink>(
    alloc: Global,
    world: &mut World,
    line: &Line,
    output: &mut K,
) -> Result<(), PlayEnd>
    ensures whole { OnOk result (PlaysAll world.old (line.now ∷ []) world.new
        (K.written output.old) (K.written output.new)) }
    ensures front { OnErr result (PlaysFront world.old (line.now ∷ [])
        (K.written output.old) (K.written output.new)) }
    ensures output { IsErrOf result PlayEnd.Output →
        Rose (K.faults output.old) (K.faults output.new) }
    ensures later { K.faults output.old ≤ K.faults output.new }
    ensures kept { OnOk result (K.faults output.new ≡ K.faults output.old) }
    ensures kept_want { IsErrOf result PlayEnd.NoMemory →
        K.faults output.new ≡ K.faults output.old }
{
    if let Some(out) = world.play_line(line)? {
        let text = print_line(alloc, &out)?;
        write_all(output, text.as_bytes())?;
    }
    Ok(())
}
