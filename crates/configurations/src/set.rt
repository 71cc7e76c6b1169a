ghost use Rattle.std.specs.Prelude.{ℕ, List};

use crate::MEMORIES;
use std::marker::Model;

mod calls;

// A set of configurations: for each memory the mask of a set of states. A plain struct with no model, so that what holds one, as a picture,
// is copied like any other value.
#[derive(Clone, Copy, Debug, PartialEq, Eq)]
pub struct Configurations {
    states: [u64; MEMORIES],
}

// What is left of a set whose configurations are taken one by one, by their numbers. An iterator of its own, as that of sets of states is.
#[derive(Clone, Copy, Debug, Drop)]
pub struct InOrder {
    left: Configurations,
}

impl Model for InOrder {
    ghost Value = { List ℕ };

    ghost view = { λ c. c.left.states };

    ghost inverse = { λ l. record { left = record { states = l } } };
}
