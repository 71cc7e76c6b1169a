// Slips: an environment in which an action may also have no effect.
#![tactic(auto)]

ghost use Rattle.std.specs.Prelude.{◌≡◌};
ghost use Rattle.environment.specs.System.{System, Sound};
ghost use Rattle.slip.specs.Slips.{slip as slipping, Slips, LegalAsBelow};
ghost use Rattle.slip.specs.Slipped.{slip_sound};
ghost use Rattle.std.proofs.Common.{rules};

use environment::{Alphabet, Environment};
use sets::StateSet;

// The environment below it, with an actuator that may slip: each legal action may also leave the state as it is.
#[derive(Clone, Copy, Debug, Drop, PartialEq, Eq)]
pub struct Slip<E> {
    below: E,
}

// The outcomes with the state itself, if there are any.
fn slipped(outcomes: StateSet, state: u8) -> StateSet
    ensures { Slips outcomes state result }
{
    if outcomes.is_empty() {
        outcomes
    } else {
        outcomes.with(state)
    }
}

impl<E: Environment> Slip<E> {
    // A slip over the environment.
    pub fn new(below: E) -> Slip<E>
        ensures { result.below ≡ below }
    {
        Slip { below }
    }
}

impl<E: Environment> Alphabet for Slip<E> {
    ghost acts = { λ e. E.Alphabet.acts e.below };

    ghost sights = { λ e. E.Alphabet.sights e.below };

    fn actions(&self) -> u8 {
        self.below.actions()
    }

    fn observations(&self) -> u8 {
        self.below.observations()
    }
}

impl<E: Environment> Environment for Slip<E> {
    ghost meaning = { λ e. slipping (E.Environment.meaning e.below) };

    ghost sound = { λ e. slip_sound (E.Environment.meaning e.below) (E.Environment.sound e.below) };

    ghost same_actions = { Prim.search rules };

    ghost same_observations = { Prim.search rules };

    fn states(&self) -> u8 {
        self.below.states()
    }

    fn initial(&self) -> StateSet {
        self.below.initial()
    }

    fn goal(&self) -> StateSet {
        self.below.goal()
    }

    fn observation(&self, state: u8) -> u8 {
        self.below.observation(state)
    }

    fn outcomes(&self, state: u8, action: u8) -> StateSet {
        slipped(self.below.outcomes(state, action), state)
    }
}

// In a slip over any environment the same actions are legal in the same states.
pub fn legal_as_below()
    ensures { (x : System) → Sound x → LegalAsBelow x }
{}
