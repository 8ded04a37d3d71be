//! What a crash leaves of each word or byte that may be lost.
ghost use Rattle.std.specs.Prelude.{◌≡◌};
ghost use Rattle.cfs_pmem.specs.Draws.{draw_of, next_state, pick_of, word_left, after_word, byte_left, after_byte};

/// The durable values, the present ones, or draws of a generator.
#[derive(Clone, Copy, Debug, PartialEq, Eq)]
pub enum Pick {
    /// Each value that was made durable.
    Durable,
    /// Each value that was written last.
    Present,
    /// What the draws say. Holds the state of the generator.
    Drawn(u64),
}

impl Pick {
    /// Pick 0 is `Durable`, 1 is `Present`, and each other number seeds the generator.
    pub fn new(k: u64) -> Pick
        ensures { result ≡ pick_of k }
    {
        match k {
            0 => Pick::Durable,
            1 => Pick::Present,
            seed => Pick::Drawn(seed),
        }
    }

    /// The word that a crash leaves. Draws once where the two differ: an even draw leaves the
    /// durable one.
    pub fn word(&mut self, durable: u64, present: u64) -> u64
        ensures word { result ≡ word_left self.old durable present }
        ensures pick { self.new ≡ after_word self.old durable present }
    {
        match self {
            Pick::Durable => durable,
            Pick::Present => present,
            Pick::Drawn(state) => {
                if durable == present || draw(state) % 2 != 0 {
                    present
                } else {
                    durable
                }
            }
        }
    }

    /// The byte that a crash leaves. Where it was written since the last flush that succeeded, a
    /// draw modulo 256 is the byte, whether the two differ or not.
    pub fn byte(&mut self, written: bool, durable: u8, present: u8) -> u8
        ensures byte { result ≡ byte_left written self.old durable present }
        ensures pick { self.new ≡ after_byte written self.old durable present }
    {
        match self {
            Pick::Durable => durable,
            Pick::Present => present,
            Pick::Drawn(state) => {
                if written {
                    (draw(state) % 256) as u8
                } else {
                    present
                }
            }
        }
    }
}

/// One draw of a linear congruential generator with the constants of Knuth's MMIX: the upper 31
/// bits of its next state.
fn draw(state: &mut u64) -> u64
    ensures drawn { result ≡ draw_of state.old }
    ensures state { state.new ≡ next_state state.old }
{
    *state = state
        .wrapping_mul(6364136223846793005)
        .wrapping_add(1442695040888963407);
    *state >> 33
}
