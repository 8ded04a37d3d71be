//! The generator that a workload draws from.

ghost use Rattle.std.specs.Prelude.{◌≡◌};
ghost use Rattle.cfs_pmem.specs.Draws.{draw_of, next_state};
ghost use Rattle.cfs_gen.specs.Draws.{drawn_from, state_after};

use crate::drawn::Drawn;
use std::marker::Model;

/// A linear congruential generator with the constants of Knuth's MMIX. Contracts see its state.
#[derive(Debug, Drop)]
pub(crate) struct Draws {
    state: u64,
}

impl Model for Draws {
    ghost use Rattle.std.specs.Prelude.{ℕ};

    ghost Value = { ℕ };

    ghost view = { λ d. d.state };
}

impl Draws {
    /// The draws of a seed.
    pub(crate) fn new(seed: u64) -> Draws
        ensures { result ≡ seed }
    {
        Draws { state: seed }
    }

    /// What a request draws: four draws, in this order.
    #[tactic(auto, unfolding(crate::specs::Draws::state_after))]
    pub(crate) fn request(&mut self) -> Drawn
        ensures drawn { result ≡ drawn_from self.old }
        ensures state { self.new ≡ state_after self.old 4 }
    {
        let fd = self.draw() % 2;
        let offset = self.draw() % 61_440;
        let length = 1 + self.draw() % 4096;
        let has_turn = self.draw() % 3 == 0;
        Drawn {
            fd: fd as u32,
            offset,
            length,
            has_turn,
        }
    }

    /// One draw: the upper 31 bits of the next state.
    fn draw(&mut self) -> u64
        ensures drawn { result ≡ draw_of self.old }
        ensures state { self.new ≡ next_state self.old }
    {
        self.state = self
            .state
            .wrapping_mul(6364136223846793005)
            .wrapping_add(1442695040888963407);
        self.state >> 33
    }
}
