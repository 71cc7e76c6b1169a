ghost use Rattle.std.specs.Prelude.{ℕ, ◌^◌, ◌<◌, slice_index};

use configurations::{MEMORIES, STATES};

mod calls;

// So many places there are for steps, one for each configuration.
const PLACES: usize = MEMORIES * STATES;

// What a moving configuration does.
#[derive(Clone, Copy)]
pub(crate) struct Step {
    pub(crate) next: u8,
    pub(crate) outcomes: u64,
    ghost near: { next < 4 },
    ghost narrow: { outcomes < 2 ^ 64 },
}

// A step for each configuration, that of (m, s) at the place m * 64 + s. The next memories stand together and so do the outcomes: an
// array of steps would take nearly twice the room, since each would be filled up to the next whole word, and the sweeps that judge a
// picture spend their time on reading it. One array each, by numbers: of a row in an array of rows no proof would know the length after
// a write.
#[derive(Clone, Copy)]
pub(crate) struct Steps {
    nexts: [u8; PLACES],
    outcomes: [u64; PLACES],
    ghost near: { (c : ℕ) → slice_index nexts c < 4 },
    ghost narrow: { (c : ℕ) → slice_index outcomes c < 2 ^ 64 },
}
