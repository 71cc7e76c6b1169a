ghost use Rattle.std.specs.Prelude.{◌≡◌, ℕ, ◌+◌, ◌*◌, ◌<◌, false};
ghost use Rattle.configurations.specs.Holds.{same};
ghost use Rattle.picture.specs.Kinds.{no_step, step_in};

use crate::steps::{PLACES, Step, Steps};
use configurations::{Configuration, STATES};

// Where the step of a configuration stands.
fn place(at: Configuration) -> usize
    ensures { result ≡ at.memory * 64 + at.state }
{
    at.memory as usize * STATES + at.state as usize
}

impl Steps {
    // No configuration has a step yet.
    pub(crate) fn none() -> Steps
        ensures { (m s : ℕ) → step_in result m s ≡ no_step }
    {
        Steps {
            nexts: [0; PLACES],
            outcomes: [0; PLACES],
        }
    }

    // The step of a configuration.
    pub(crate) fn at(&self, at: Configuration) -> Step
        requires memory { at.memory < 4 }
        requires state { at.state < 64 }
        ensures { result ≡ step_in self.now at.memory at.state }
    {
        let place = place(at);
        Step {
            next: self.nexts[place],
            outcomes: self.outcomes[place],
        }
    }

    // Gives a configuration a step.
    pub(crate) fn set(&mut self, at: Configuration, step: Step)
        requires memory { at.memory < 4 }
        requires state { at.state < 64 }
        ensures here { step_in self.new at.memory at.state ≡ step }
        ensures there { (m s : ℕ) → s < 64 → same at.memory at.state m s ≡ false → step_in self.new m s ≡ step_in self.old m s }
    {
        let place = place(at);
        self.nexts[place] = step.next;
        self.outcomes[place] = step.outcomes;
    }
}
