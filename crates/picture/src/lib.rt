// The picture of a table: what becomes of each configuration, a memory with a state, when runs of the table are followed.
#![tactic(auto)]

ghost use Rattle.std.specs.Prelude.{◌≡◌, ℕ, ◌<◌, true};
ghost use Rattle.configurations.specs.Holds.{holds};
ghost use Rattle.picture.specs.Parts.{one_kind};

mod calls;
mod drawing;
pub mod settling;
mod steps;

pub use crate::drawing::reading;
use crate::steps::Steps;
pub use configurations::{Configuration, Configurations, MEMORIES, STATES};

#[derive(Clone, Copy, Debug, PartialEq, Eq)]
pub enum Kind {
    // No run comes here. Every configuration has one of six kinds, so that this is a kind and no absence.
    NotReached,
    // The entry that is read here is blank.
    Open,
    // A run stops here, in a goal or not.
    StoppedInGoal,
    StoppedOffGoal,
    // The action that is taken here has no outcome.
    Stuck,
    // A run goes on, at memory `next`, in any one state of the set whose mask is `outcomes`. A mask, so that a kind holds no type with a
    // model and is copied like any other value.
    Moving { next: u8, outcomes: u64 },
}

// A set of configurations for what is reached and one for each kind of it; a reached configuration that is in none of the other sets
// moves. What a moving configuration does is its step; the other steps are what an earlier picture left: drawing a picture does not clear
// them, and a kind is read by the sets first.
#[derive(Clone, Copy)]
pub struct Picture {
    reached: Configurations,
    opened: Configurations,
    finished: Configurations,
    missed: Configurations,
    stuck: Configurations,
    steps: Steps,
    // Each configuration has one kind.
    ghost parted: { (m s : ℕ) → one_kind (holds reached.states m s) (holds opened.states m s) (holds finished.states m s) (holds missed.states m s) (holds stuck.states m s) ≡ true },
    // There are four memories and 64 states.
    ghost bounded: { (m s : ℕ) → holds reached.states m s ≡ true → (m < 4) × (s < 64) },
}
