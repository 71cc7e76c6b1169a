ghost use Rattle.std.specs.Prelude.{◌≡◌, ◌-◌, [], ◌∷◌, MatchOption};
ghost use Rattle.tree.specs.Choices.{by_actions, choices_after};

use crate::bars::Bars;
use controller::entry::Entry;
use controller::table::Table;

// The move with the first action from `from` on that is not barred at the observation, to memory 0.
fn first_move(bars: &Bars, table: &Table, observation: u8, from: u8) -> Option<Entry>
    ensures { MatchOption result (by_actions bars.now table.now.memories observation from (table.now.actions - from) ≡ []) (λ f. by_actions bars.now table.now.memories observation from (table.now.actions - from) ≡ f ∷ choices_after bars.now table.now.memories table.now.actions observation f) }
{
    let action = bars.first_free(observation, from, table.actions())?;
    Some(Entry::Move { action, next: 0 })
}

// What an entry at the observation is filled with after what it holds; none where every choice has been made. Bars, table and observation
// are parameters: a struct of them would be made for this one call.
#[tactic(auto, using(crate::proofs::Siblings::next_memory))]
pub fn following(bars: &Bars, table: &Table, observation: u8, entry: Entry) -> Option<Entry>
    ensures { MatchOption result (choices_after bars.now table.now.memories table.now.actions observation entry ≡ []) (λ f. choices_after bars.now table.now.memories table.now.actions observation entry ≡ f ∷ choices_after bars.now table.now.memories table.now.actions observation f) }
{
    match entry {
        Entry::Blank => Some(Entry::Stop),
        Entry::Stop => first_move(bars, table, observation, 0),
        Entry::Move { action, next } if next < table.memories() - 1 => Some(Entry::Move {
            action,
            next: next + 1,
        }),
        Entry::Move { action, .. } => first_move(bars, table, observation, action.checked_add(1)?),
    }
}
