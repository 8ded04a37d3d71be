//! Grants are taken away.

ghost use Rattle.std.specs.Prelude.{◌≡◌, [], None};
ghost use Rattle.cfs_active.specs.Makes.{QuietlyMakes};
ghost use Rattle.cfs_tracker.specs.Listing.{listing};
ghost use Rattle.cfs_granted.specs.Detaching.{all_dropped, detach_events, detached};
ghost use Rattle.cfs_granted.specs.Readers.{places_under};
ghost use Rattle.cfs_granted.specs.View.{life_view};

use crate::find::first_under;
use crate::life::Life;
use crate::rows::queue_of;

impl Life {
    /// Takes the grant of a number away, with the reads and syncs that are pending under it. No
    /// change of it is pending or in doubt, which `listing` tells. No device is asked for a step.
    pub fn detach(&mut self, number: u64)
        requires { listing (life_view self.old).active.state.tracker number 0 ≡ None }
        ensures view { life_view self.new ≡ detached number (life_view self.old) }
        ensures makes { QuietlyMakes (detach_events number (life_view self.old))
            (life_view self.old).active (life_view self.new).active }
    {
        self.drop_under(number);
        if let Some(queue) = queue_of(self.grants.rows(), number) {
            self.grants.close(queue as u32);
        }
    }

    /// Drops the reads and syncs that are pending under a grant.
    fn drop_under(&mut self, number: u64)
        ensures view { life_view self.new ≡
            all_dropped (places_under number (life_view self.old).readers) (life_view self.old) }
        ensures makes { QuietlyMakes (detach_events number (life_view self.old))
            (life_view self.old).active (life_view self.new).active }
        ensures none { places_under number (life_view self.new).readers ≡ [] }
        ensures entries { (life_view self.new).active.state.tracker.entries ≡
            (life_view self.old).active.state.tracker.entries }
        ensures doubt { (life_view self.new).active.state.tracker.doubt ≡
            (life_view self.old).active.state.tracker.doubt }
    {
        while let Some(reader) = first_under(&self.readers, number) {
            self.drop_read(reader.place);
        }
    }
}
