// Environments: what a station, or any other finite system with several outcomes, is to the search.
#![tactic(auto)]

ghost use Rattle.std.specs.Prelude.{◌≡◌, ℕ};
ghost use Rattle.environment.specs.System.{System, Sound, Over, is_legal};

use sets::StateSet;

// The limits of an environment.
pub const MOST_ACTIONS: u8 = 8;

pub const MOST_OBSERVATIONS: u8 = 16;

pub const MOST_STATES: u8 = 64;

// The actions and the observations of a line, each numbered from 0.
pub trait Alphabet {
    // How many actions there are.
    ghost acts: { Self → ℕ };

    // How many observations there are.
    ghost sights: { Self → ℕ };

    fn actions(&self) -> u8
        ensures { result ≡ acts self.now };

    fn observations(&self) -> u8
        ensures { result ≡ sights self.now };
}

// An alphabet with states besides. Its meaning is one finite system; each question answers that system's value, for every argument, in
// range or not, and asking changes nothing. The system is one over the alphabet: it is a law, and
// every question promises it too, so that who asks one knows it with no law at hand.
pub trait Environment: Alphabet {
    ghost meaning: { Self → System };

    fn states(&self) -> u8
        ensures value { result ≡ (meaning self.now).states }
        ensures alphabet { Over (Self.Alphabet.acts self.now) (Self.Alphabet.sights self.now) (meaning self.now) };

    // The set of the states that a run may begin in.
    fn initial(&self) -> StateSet
        ensures value { result ≡ (meaning self.now).initial }
        ensures alphabet { Over (Self.Alphabet.acts self.now) (Self.Alphabet.sights self.now) (meaning self.now) };

    // The set of the states that a run is to stop in.
    fn goal(&self) -> StateSet
        ensures value { result ≡ (meaning self.now).goal }
        ensures alphabet { Over (Self.Alphabet.acts self.now) (Self.Alphabet.sights self.now) (meaning self.now) };

    fn observation(&self, state: u8) -> u8
        ensures value { result ≡ (meaning self.now).observation state }
        ensures alphabet { Over (Self.Alphabet.acts self.now) (Self.Alphabet.sights self.now) (meaning self.now) };

    // The states to which the action may lead; none where it is not legal. State and action are two numbers, as the question is laid down.
    fn outcomes(&self, state: u8, action: u8) -> StateSet
        ensures value { result ≡ (meaning self.now).outcomes state action }
        ensures alphabet { Over (Self.Alphabet.acts self.now) (Self.Alphabet.sights self.now) (meaning self.now) };

    // Does the action lead anywhere from the state?
    fn legal(&self, state: u8, action: u8) -> bool
        ensures value { result ≡ is_legal (meaning self.now) state action }
        ensures alphabet { Over (Self.Alphabet.acts self.now) (Self.Alphabet.sights self.now) (meaning self.now) }
    {
        !self.outcomes(state, action).is_empty()
    }

    ghost sound: { (e : Self) → Sound (meaning e) };

    ghost same_actions: { (e : Self) → (meaning e).actions ≡ Self.Alphabet.acts e };

    ghost same_observations: { (e : Self) → (meaning e).observations ≡ Self.Alphabet.sights e };
}
