//! The history of a region, which takes no room at run time.
ghost use Rattle.std.specs.Prelude.{◌≡◌, [], ◌∷◌};
ghost use Rattle.cfs_pmem.specs.Images.{changed, persisted};

use std::marker::Model;
use std::mem;
use std::snapshot::Snapshot;

/// The words after each writing step of a region. Contracts alone read it, as a list of `WordStep`,
/// the newest first.
#[derive(Drop)]
pub struct History {
    past: Snapshot<Past>,
}

/// One step and those before it.
#[derive(Drop)]
enum Past {
    Start,
    Changed(Snapshot<Vec<u64>>, Snapshot<Past>),
    Persisted(Snapshot<Vec<u64>>, Snapshot<Past>),
}

impl Model for History {
    ghost use Rattle.std.specs.Prelude.{List};
    ghost use Rattle.cfs_pmem.specs.Images.{WordStep};

    ghost Value = { List WordStep };

    ghost use Rattle.cfs_pmem.specs.Log.{word_steps};

    ghost view = { λ h. word_steps h.past.value };
}

impl History {
    /// Begins with these words, as the only ones that a crash may leave.
    pub fn of(words: &Vec<u64>) -> History
        ensures { result ≡ persisted words.now.items ∷ [] }
    {
        History {
            past: Snapshot::of(&Past::Persisted(Snapshot::of(words), Snapshot::of(&Past::Start))),
        }
    }

    /// Notes a write, or a step that failed, with the words after it.
    #[inline]
    pub fn change(&mut self, words: &Vec<u64>)
        ensures { self.new ≡ changed words.now.items ∷ self.old }
    {
        let before = mem::replace(&mut self.past, Snapshot::of(&Past::Start));
        self.past = Snapshot::of(&Past::Changed(Snapshot::of(words), before));
    }

    /// Notes a persist that succeeded, with the words after it.
    #[inline]
    pub fn persist(&mut self, words: &Vec<u64>)
        ensures { self.new ≡ persisted words.now.items ∷ self.old }
    {
        let before = mem::replace(&mut self.past, Snapshot::of(&Past::Start));
        self.past = Snapshot::of(&Past::Persisted(Snapshot::of(words), before));
    }
}
