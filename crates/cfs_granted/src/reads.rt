//! Reads and syncs are admitted under a grant, answered and dropped.

ghost use Rattle.cfs_active.specs.Admits.{ReadMakes};
ghost use Rattle.cfs_active.specs.Makes.{ActiveMakes, QuietlyMakes};
ghost use Rattle.std.specs.Prelude.{◌≡◌, ◌+◌, ◌<◌, ◌^◌, ℕ, [], ◌∷◌, IfOk, None, OnErr, OnOk, is_ok, is_some, length, true};
ghost use Rattle.cfs_core.specs.declared.event.Event.TheVariants as events;
ghost use Rattle.cfs_core.specs.May.{is_query, is_sync_request};
ghost use Rattle.cfs_inode.specs.declared.answers.ServeAnswer.TheVariants.{NotYet};
ghost use Rattle.cfs_inode.specs.Serves.{IsRead, Serves, serve_events};
ghost use Rattle.cfs_tracker.specs.Reads.{reading};
ghost use Rattle.cfs_tracker.specs.View.{read_at};
ghost use Rattle.cfs_granted.specs.Asking.{asked_under, dropped, readers_behind};
ghost use Rattle.cfs_granted.specs.Rows.{may_ask};
ghost use Rattle.cfs_granted.specs.View.{life_view, query_room, reader_room};

use crate::denied::Denied;
use crate::find::{drop_reader, keep_reader};
use crate::life::Life;
use crate::reader::Reader;
use crate::rows::may_ask;
use cfs_file::Request;
use cfs_inode::ServeAnswer;
use cfs_pmem::Power;
use cfs_tracker::Reading;

impl Life {
    /// A read or a sync that was asked under a grant takes the next place. It answers `Denied`
    /// exactly where no grant of that number stands, or none that reads and the request is a read.
    /// Then nothing has changed. No device is asked for a step.
    pub fn admit_read(&mut self, request: &Request, grant: u64) -> Result<Reading, Denied<()>>
        requires query { is_query request.now ≡ true }
        requires places { (life_view self.old).active.state.tracker.count + 1 < 2 ^ 64 }
        requires room { 0 < query_room self.old }
        requires kept { 0 < reader_room self.old }
        ensures allowed { is_ok result ≡
            may_ask (is_sync_request request.now) grant (life_view self.old).grants }
        ensures reading { IfOk result (λ read. read ≡
            reading request.now (life_view self.old).active.state.tracker) }
        ensures view { OnOk result (life_view self.new ≡
            asked_under grant request.now (life_view self.old)) }
        ensures makes { OnOk result (ReadMakes request.now (life_view self.old).active
            (life_view self.new).active) }
        ensures same { OnErr result (life_view self.new ≡ life_view self.old) }
    {
        let is_sync = matches!(request, Request::Sync);
        if !may_ask(self.grants.rows(), is_sync, grant) {
            return Err(Denied { back: () });
        }
        let reading = self.active.admit_read(request);
        let place = reading.place;
        keep_reader(&mut self.readers, Reader { place, grant });
        Ok(reading)
    }

    /// The read or sync at a place is dropped. No device is asked for a step.
    pub fn drop_read(&mut self, place: u64)
        requires { is_some (read_at (life_view self.old).active.state.tracker.reads place) ≡ true }
        ensures view { life_view self.new ≡ dropped place (life_view self.old) }
        ensures makes { QuietlyMakes (events.Serve place None ∷ [])
            (life_view self.old).active
            (life_view self.new).active }
    {
        self.active.drop_read(place);
        drop_reader(&mut self.readers, place);
    }

    /// Answers the pending read at a place, as `ActiveInode::serve` does.
    pub fn serve<P: Power>(&mut self, power: &mut P, place: u64, out: &mut [u8]) -> ServeAnswer
        requires { IsRead (life_view self.old).active.state place (length out.old) }
        ensures serves { Serves true place result out.new
            (P.asked power.old) (life_view self.old).active.state
            (P.asked power.new) (life_view self.new).active.state }
        ensures jobs { (life_view self.new).active.jobs ≡ (life_view self.old).active.jobs }
        ensures waiting { (before : ℕ) → result ≡ NotYet before → out.new ≡ out.old }
        ensures makes { ActiveMakes (serve_events place result out.new)
            (P.asked power.old) (life_view self.old).active
            (P.asked power.new) (life_view self.new).active }
        ensures grants { (life_view self.new).grants ≡ (life_view self.old).grants }
        ensures readers { (life_view self.new).readers ≡
            readers_behind place result (life_view self.old).readers }
    {
        let answer = self.active.serve(power, place, out);
        match answer {
            ServeAnswer::Served => drop_reader(&mut self.readers, place),
            ServeAnswer::NotYet(_) | ServeAnswer::Failed => {}
        }
        answer
    }
}
