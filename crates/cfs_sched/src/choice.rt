ghost use Rattle.std.specs.Prelude.{◌≡◌, ◌↔◌, ◌≤◌, ℕ, [], IsNone, IsTrue, IfSome, Some, slice_get};
ghost use Rattle.cfs_sched.specs.Choice.{ComesBefore, IsFirst, PassedOverComesFirst, StandsBefore, urgency};
ghost use Rattle.cfs_sched.specs.declared.summary.Summary.{Summary as Item};

use crate::summary::Summary;

/// How often an item is passed over before it comes ahead of all that was passed over less often.
const PATIENCE: u64 = 64;

/// The item that is done next.
#[derive(Clone, Copy, Debug, PartialEq, Eq)]
pub struct Choice {
    /// Where it stands in the list that was chosen from.
    pub index: usize,
}

impl Summary {
    /// How urgent this item is; the greater number is the more urgent.
    fn urgency(&self) -> u64
        ensures { result ≡ urgency self.now }
    {
        if self.passed >= PATIENCE {
            self.passed
        } else if self.read_waits {
            1
        } else {
            0
        }
    }

    /// Whether this item comes before another one.
    fn comes_before(&self, other: &Summary) -> bool
        ensures { IsTrue result ↔ ComesBefore self.now other.now }
    {
        let mine = self.urgency();
        let theirs = other.urgency();
        mine > theirs
            || mine == theirs
                && (self.rec < other.rec || self.rec == other.rec && self.place < other.place)
    }
}

/// The item that is done next, and none exactly where there is none.
///
/// First comes an item that was passed over 64 times or more, the one passed over most often first;
/// then one for which a read waits; then any. Of items that are alike in this the lowest record
/// comes first, then the lowest place, and of items alike in these too the first of the list. Own.
pub fn choose(work: &[Summary]) -> Option<Choice>
    ensures none { IsNone result ↔ (work.now ≡ []) }
    ensures first { IfSome result (λ choice. (item : Item) × IsFirst work.now choice.index item) }
    // One that was passed over 64 times or more is never left for one passed over less often.
    ensures fair { IfSome result (λ choice. (k : ℕ) (chosen other : Item) →
        slice_get work.now choice.index ≡ Some chosen → slice_get work.now k ≡ Some other →
        64 ≤ other.passed → other.passed ≤ chosen.passed) }
{
    let mut best = work.first()?;
    let mut index = 0;
    for (at, item) in work.iter().enumerate() {
        if item.comes_before(best) {
            best = item;
            index = at;
        }
    }
    Some(Choice { index })
}

/// The law that an item passed over 64 times or more comes before each that was passed over less.
pub fn passed_over_often_comes_first()
    ensures { PassedOverComesFirst }
{}
