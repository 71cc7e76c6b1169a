ghost use Rattle.std.specs.Prelude.{refl};
ghost use Rattle.modelsheet.specs.Says.{system_of};
ghost use Rattle.modelsheet.specs.Systems.{system_sound};

use crate::model::Model;
use environment::{Alphabet, Environment};
use sets::StateSet;

impl Alphabet for Model {
    ghost acts = { λ m. m.actions };

    ghost sights = { λ m. m.observations };

    fn actions(&self) -> u8 {
        self.actions
    }

    fn observations(&self) -> u8 {
        self.observations
    }
}

impl Environment for Model {
    ghost meaning = { system_of };

    ghost sound = { λ m. system_sound m };

    ghost same_actions = { λ _. refl };

    ghost same_observations = { λ _. refl };

    fn states(&self) -> u8 {
        self.states
    }

    fn initial(&self) -> StateSet {
        StateSet::from(self.initial)
    }

    fn goal(&self) -> StateSet {
        StateSet::from(self.goal)
    }

    fn observation(&self, state: u8) -> u8 {
        if state < self.states {
            self.sights[state as usize]
        } else {
            0
        }
    }

    fn outcomes(&self, state: u8, action: u8) -> StateSet {
        if state < self.states && action < self.actions {
            StateSet::from(self.leads[state as usize * self.actions as usize + action as usize])
        } else {
            StateSet::EMPTY
        }
    }
}
