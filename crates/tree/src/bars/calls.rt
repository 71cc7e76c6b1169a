ghost use Rattle.std.specs.Prelude.{◌≡◌, ℕ, ◌<◌, ◌≤◌, true, false, ◌&&◌, ◌||◌, MatchOption, ◌==◌, nat_lt, slice_index_or};
ghost use Rattle.tree.specs.Bars.{barred_at, stands};

use crate::bars::{ACTIONS, Bars, OBSERVATIONS};
use environment::{MOST_ACTIONS, MOST_OBSERVATIONS};

// Bars the action in the marks of one observation; past the limit of an alphabet nothing changes.
fn bar(marks: &mut [bool; ACTIONS], action: u8)
    ensures { (a : ℕ) → slice_index_or marks.new a false ≡ (slice_index_or marks.old a false || (nat_lt action 8 && action == a)) }
{
    if action < MOST_ACTIONS {
        marks[action as usize] = true;
    }
}

impl Bars {
    // Nothing is barred.
    #[tactic(auto, using(crate::proofs::Marks::none_barred))]
    pub fn none() -> Bars
        ensures { (o a : ℕ) → barred_at result o a ≡ false }
    {
        Bars {
            barred: [[false; ACTIONS]; OBSERVATIONS],
        }
    }

    // Bars the action at the observation, and nothing else; past the limits of an alphabet nothing changes. The two numbers are those of the
    // call `bar` of a case, and each is looked at once.
    pub fn add(&mut self, observation: u8, action: u8)
        ensures { (o a : ℕ) → barred_at self.new o a ≡ (barred_at self.old o a || (stands observation action && (observation == o && action == a))) }
    {
        if observation < MOST_OBSERVATIONS {
            bar(&mut self.barred[observation as usize], action);
        }
    }

    // Is the action barred at the observation?
    pub fn bars(&self, observation: u8, action: u8) -> bool
        ensures { result ≡ barred_at self.now observation action }
    {
        self.barred
            .get(observation as usize)
            .and_then(|row| row.get(action as usize))
            .copied()
            .unwrap_or(false)
    }

    // The first action from `from` on, below `count`, that is not barred at the observation.
    pub fn first_free(&self, observation: u8, from: u8, count: u8) -> Option<u8>
        ensures { MatchOption result ((a : ℕ) → from ≤ a → a < count → barred_at self.now observation a ≡ true) (λ f. (from ≤ f) × (f < count) × (barred_at self.now observation f ≡ false) × ((a : ℕ) → from ≤ a → a < f → barred_at self.now observation a ≡ true)) }
    {
        (from..count).find(|action| !self.bars(observation, *action))
    }
}
