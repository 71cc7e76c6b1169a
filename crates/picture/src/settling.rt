ghost use Rattle.std.specs.Prelude.{◌≡◌, ℕ, ◌<◌, true, false, Decides, MatchBool};
ghost use Rattle.configurations.specs.Holds.{holds, weight};
ghost use Rattle.picture.specs.Settling.{Met, Unmet, Rests, Swept, Waits};

use crate::steps::Step;
use crate::{Configuration, Configurations, MEMORIES, Picture};
use sets::StateSet;

// How many of its outcomes a moving configuration waits for. An enum and no closure: what comes to rest is defined by it.
#[derive(Clone, Copy, Debug, PartialEq, Eq)]
pub enum Quorum {
    Every,
    Any,
}

impl Quorum {
    // Need a move with these outcomes wait no more, where `waiting` is what still waits at its next memory?
    pub fn met(self, outcomes: StateSet, waiting: StateSet) -> bool
        ensures { MatchBool result (Met self outcomes waiting) (Unmet self outcomes waiting) }
    {
        match self {
            Quorum::Every => outcomes.intersection(waiting).is_empty(),
            Quorum::Any => !outcomes.without(waiting).is_empty(),
        }
    }
}

impl Picture {
    // Goes once through the waiting configurations of one memory and takes out those whose quorum is met; says whether any was. A memory at a
    // time: its states are one number, while an iterator over all memories keeps four, and this is where a search spends its time.
    fn sweep_memory(&self, quorum: Quorum, waiting: &mut Configurations, memory: u8) -> bool
        requires { memory < 4 }
        ensures swept { Swept quorum self.now waiting.old.states waiting.new.states }
        ensures less { result ≡ true → weight waiting.new.states < weight waiting.old.states }
        ensures same { result ≡ false → waiting.new ≡ waiting.old }
        ensures waits { result ≡ false → (s : ℕ) → holds waiting.old.states memory s ≡ true → Waits quorum self.now waiting.old.states memory s }
    {
        let mut more = false;
        for state in waiting.at(memory).states() {
            let at = Configuration { memory, state };
            let Step { next, outcomes } = self.step(at);
            if quorum.met(StateSet::from(outcomes), waiting.at(next)) {
                waiting.remove(at);
                more = true;
            }
        }
        more
    }

    // Goes once through all that waits.
    fn sweep(&self, quorum: Quorum, waiting: &mut Configurations) -> bool
        requires { (m s : ℕ) → holds waiting.old.states m s ≡ true → m < 4 }
        ensures swept { Swept quorum self.now waiting.old.states waiting.new.states }
        ensures less { result ≡ true → weight waiting.new.states < weight waiting.old.states }
        ensures same { result ≡ false → waiting.new ≡ waiting.old }
        ensures waits { result ≡ false → (m s : ℕ) → holds waiting.old.states m s ≡ true → Waits quorum self.now waiting.old.states m s }
    {
        let mut more = false;
        for memory in 0..MEMORIES as u8 {
            if self.sweep_memory(quorum, waiting, memory) {
                more = true;
            }
        }
        more
    }

    // Does every configuration come to rest? One that does not move is at rest, and a moving one comes to rest once every outcome
    // of its move does, or any one, as the quorum is. Sweeps over those that wait for that until none is taken out any more.
    pub fn rests(&self, quorum: Quorum) -> bool
        ensures { Decides result ((m s : ℕ) → Rests quorum self.now m s) }
    {
        let mut waiting = self.moving();
        while self.sweep(quorum, &mut waiting) {}
        waiting.is_empty()
    }
}
