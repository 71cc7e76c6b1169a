ghost use Rattle.std.specs.Prelude.{◌≡◌, ℕ};
ghost use Rattle.std.specs.Iterator.{at_most};
ghost use Rattle.sets.specs.Mask.{Takes};

use crate::StateSet;
use std::marker::Model;

// What is left of a set whose states are taken one by one, the smallest first. Sets of configurations have an iterator of their own: one for
// both would need a trait of sets, with its laws, for two short functions.
#[derive(Clone, Copy, Debug, Drop)]
pub struct States {
    left: StateSet,
}

impl Model for States {
    ghost Value = { ℕ };

    ghost view = { λ s. s.left };

    ghost inverse = { λ n. record { left = n } };
}

impl States {
    pub(crate) fn of(set: StateSet) -> States
        ensures { result ≡ set }
    {
        States { left: set }
    }
}

impl Iterator for States {
    type Item = u8;

    ghost next_gives = { λ s r t. Takes s r t };

    ghost remaining = { λ s. at_most s };

    fn next(&mut self) -> Option<u8> {
        let first = self.left.first()?;
        self.left = self.left.except(first);
        Some(first)
    }
}
