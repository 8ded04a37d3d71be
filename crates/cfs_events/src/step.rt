//! One event.

ghost use Rattle.std.specs.Prelude.{◌≡◌, true, false, OnOk, IfErr};
ghost use Rattle.cfs_core.specs.declared.event.Event.TheVariants as events;
ghost use Rattle.cfs_events.specs.declared.step_refusal.StepRefusal.TheVariants as steps;
ghost use Rattle.cfs_events.specs.Step.{Does, IsSpanToAdmit, Makes};
ghost use Rattle.cfs_core.specs.May.{is_next};
ghost use Rattle.cfs_core.specs.After.{change_track, query_track};

use crate::after::{
    crash, finish, flush_block, log_entry, marked, mount, put_state, put_tag, put_track, retired,
    write_part,
};
use crate::jobs::next_job;
use crate::may::{
    fits, is_change, is_in_phase, is_mapped, is_query, may_dispatch, may_finish, may_flush,
    may_mark, may_serve, may_skip, may_tag, may_trim, may_write,
};
use crate::medium::{image_now, is_image, recovered_file};
use crate::step_refusal::StepRefusal;
use crate::tracks::track_of;
use cfs_core::{Core, Doubt, End, Event, Flag, Image, State, Track};
use cfs_file::{Bytes, Entry, NoMemory, Request, Span, file_after, span_of};
use std::alloc::Global;

/// Makes the event where it may come. After an `Err` for want of memory the core may be anything.
pub(crate) fn step(alloc: Global, core: &mut Core, event: &Event) -> Result<(), StepRefusal>
    ensures { Makes result core.old event.now core.new }
{
    if !is_in_phase(core.crashed, event) {
        return Err(StepRefusal::NoCase);
    }
    make(alloc, core, event)
}

/// Makes the event where it has a case.
fn make(alloc: Global, core: &mut Core, event: &Event) -> Result<(), StepRefusal>
    ensures { Does result core.old event.now core.new }
{
    match event {
        Event::Tag { block, kept } => make_tag(core, *block, *kept),
        Event::Admit { entry, grant, kept } => make_admit(alloc, core, entry, *grant, *kept),
        Event::AdmitRead { entry } => make_admit_read(alloc, core, entry),
        Event::Serve { place, answer } => make_serve(core, *place, answer),
        Event::Mark { place, by, kept } => make_mark(core, *place, *by, *kept),
        Event::Dispatch { place } => make_dispatch(core, *place),
        Event::BlockWrite { place, block, left } => {
            make_write(alloc, core, *place, *block, left)
        }
        Event::Flush { place, block, ok } => make_flush(alloc, core, *place, *block, *ok),
        Event::Finish { place, end } => make_finish(alloc, core, *place, *end),
        Event::Skip { place } => make_skip(core, *place),
        Event::Trim { block, kept } => make_trim(core, *block, *kept),
        Event::Settle => make_settle(core),
        Event::Crash { image } => make_crash(alloc, core, image),
        Event::Mount => make_mount(alloc, core),
    }
}

/// Refuses an event that may not come.
fn check(may: bool) -> Result<(), StepRefusal>
    ensures ok { OnOk result (may ≡ true) }
    ensures refused { IfErr result (λ e. (e ≡ steps.NoCase) × (may ≡ false)) }
{
    if may {
        Ok(())
    } else {
        Err(StepRefusal::NoCase)
    }
}

fn make_tag(core: &mut Core, block: u64, kept: bool) -> Result<(), StepRefusal>
    ensures { Does result core.old (events.Tag block kept) core.new }
{
    check(may_tag(core, block))?;
    put_tag(core, block, if kept { Flag::On } else { Flag::Unsure });
    Ok(())
}

fn make_admit(
    alloc: Global,
    core: &mut Core,
    entry: &Entry,
    grant: u64,
    kept: bool,
) -> Result<(), StepRefusal>
    ensures { Does result core.old (events.Admit entry.now grant kept) core.new }
{
    let span = span_to_admit(alloc, core, entry)?;
    let entry = entry.clone()?;
    if kept {
        log_entry(core, entry, change_track(grant, span))?;
    } else {
        core.doubt = Some(Doubt {
            entry,
            grant,
            span,
            gate: Flag::Unsure,
        });
    }
    Ok(())
}

/// The span of a change that may be admitted.
fn span_to_admit(alloc: Global, core: &Core, entry: &Entry) -> Result<Span, StepRefusal>
    ensures { IsSpanToAdmit result core.now entry.now }
{
    check(core.doubt.is_none() && is_next(core, entry) && is_change(&entry.request))?;
    let file = file_after(alloc, &core.base, core.log.as_slice())?;
    check(fits(&file, &entry.request))?;
    let span = span_of(&entry.request, file.len() as u64);
    check(is_mapped(core.tags.as_slice(), span))?;
    Ok(span)
}

/// Whether the entry has the next place.
fn is_next(core: &Core, entry: &Entry) -> bool
    ensures { result ≡ is_next core.now entry.now }
{
    0 < entry.place && entry.place - 1 == core.log.len() as u64
}

fn change_track(grant: u64, span: Span) -> Track
    ensures { result ≡ change_track grant span }
{
    Track {
        grant,
        span,
        state: State::Waiting,
        applied: false,
        done: None,
        gate: Flag::On,
        mark: Flag::Off,
    }
}

fn query_track(span: Span) -> Track
    ensures { result ≡ query_track span }
{
    Track {
        grant: 0,
        span,
        state: State::Unserved,
        applied: false,
        done: None,
        gate: Flag::Off,
        mark: Flag::Off,
    }
}

fn make_admit_read(alloc: Global, core: &mut Core, entry: &Entry) -> Result<(), StepRefusal>
    ensures { Does result core.old (events.AdmitRead entry.now) core.new }
{
    check(is_next(core, entry) && is_query(&entry.request))?;
    let file = file_after(alloc, &core.base, core.log.as_slice())?;
    let span = span_of(&entry.request, file.len() as u64);
    log_entry(core, entry.clone()?, query_track(span))?;
    Ok(())
}

fn make_serve(core: &mut Core, place: u64, answer: &Option<Bytes>) -> Result<(), StepRefusal>
    ensures { Does result core.old (events.Serve place answer.now) core.new }
{
    check(may_serve(core, place, answer))?;
    put_state(core, place, State::Closed);
    Ok(())
}

fn make_mark(core: &mut Core, place: u64, by: u64, kept: bool) -> Result<(), StepRefusal>
    ensures { Does result core.old (events.Mark place by kept) core.new }
{
    check(may_mark(core, place, by))?;
    let track = track_of(core.tracks.as_slice(), place);
    put_track(core, place, marked(track, kept));
    Ok(())
}

fn make_dispatch(core: &mut Core, place: u64) -> Result<(), StepRefusal>
    ensures { Does result core.old (events.Dispatch place) core.new }
{
    check(may_dispatch(core, place))?;
    let track = track_of(core.tracks.as_slice(), place);
    let job = next_job(core.tags.as_slice(), &track);
    put_state(core, place, State::Out(job));
    Ok(())
}

fn make_write(
    alloc: Global,
    core: &mut Core,
    place: u64,
    block: u64,
    left: &Option<Bytes>,
) -> Result<(), StepRefusal>
    ensures { Does result core.old (events.BlockWrite place block left.now) core.new }
{
    let may = may_write(core, place, block, left);
    if !may {
        return Err(StepRefusal::NoCase);
    }
    write_part(alloc, core, place, block, left)?;
    Ok(())
}

fn make_flush(
    alloc: Global,
    core: &mut Core,
    place: u64,
    block: u64,
    ok: bool,
) -> Result<(), StepRefusal>
    ensures { Does result core.old (events.Flush place block ok) core.new }
{
    check(may_flush(core, place, block))?;
    flush_block(alloc, core, place, block, ok)?;
    Ok(())
}

fn make_finish(alloc: Global, core: &mut Core, place: u64, end: End) -> Result<(), StepRefusal>
    ensures { Does result core.old (events.Finish place end) core.new }
{
    check(may_finish(core, place, end))?;
    finish(alloc, core, place, end)?;
    Ok(())
}

fn make_skip(core: &mut Core, place: u64) -> Result<(), StepRefusal>
    ensures { Does result core.old (events.Skip place) core.new }
{
    check(may_skip(core, place))?;
    let track = track_of(core.tracks.as_slice(), place);
    put_track(core, place, retired(track));
    Ok(())
}

fn make_trim(core: &mut Core, block: u64, kept: bool) -> Result<(), StepRefusal>
    ensures { Does result core.old (events.Trim block kept) core.new }
{
    check(may_trim(core, block))?;
    put_tag(core, block, if kept { Flag::Off } else { Flag::Unsure });
    Ok(())
}

fn make_settle(core: &mut Core) -> Result<(), StepRefusal>
    ensures { Does result core.old events.Settle core.new }
{
    check(core.doubt.is_some())?;
    core.doubt = None;
    Ok(())
}

fn make_crash(alloc: Global, core: &mut Core, image: &Image) -> Result<(), StepRefusal>
    ensures { Does result core.old (events.Crash image.now) core.new }
{
    check(is_image(core, image))?;
    crash(alloc, core, image)?;
    Ok(())
}

fn make_mount(alloc: Global, core: &mut Core) -> Result<(), StepRefusal>
    ensures { Does result core.old events.Mount core.new }
{
    let image = image_now(alloc, core)?;
    let found = recovered_file(alloc, core, &image)?;
    mount(alloc, core, found)?;
    Ok(())
}
