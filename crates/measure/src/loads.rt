ghost use Rattle.std.specs.Prelude.{◌≡◌, ℕ, ◌+◌, ◌*◌, ◌^◌, ◌<◌, ◌≤◌, true, ◌&&◌, length, IfSome, MatchResult, nat_lt, slice_index_or};
ghost use Rattle.configurations.specs.Holds.{holds};
ghost use Rattle.picture.specs.Kinds.{is_moving};
ghost use Rattle.measure.specs.Refused.{size, Loaded, Refused};

use crate::Measure;
use controller::entry::Entry;
use controller::table::Table;
use environment::Environment;
use picture::settling::Quorum;
use picture::{Configuration, Configurations, Kind, Picture, reading};
use refusals::Refusal;
use sets::StateSet;

// The runs of a table in an environment, drawn in a picture, and the measure that they are weighed with. The loads stay apart: with them in
// here `settle` would have to promise that the rest of it stays, and the test for too few would stand twice.
#[derive(Drop)]
struct Runs<'a, M, E> {
    measure: &'a M,
    environment: &'a E,
    table: &'a Table,
    picture: &'a Picture,
}

impl<M: Measure, E: Environment> Runs<'_, M, E> {
    // How many configurations there are, each with a load.
    fn size(&self) -> usize
        ensures { result ≡ size (E.Environment.meaning self.now.environment.now) self.now.table.now }
    {
        self.table.memories() as usize * self.environment.states() as usize
    }

    // Where the load of a configuration stands.
    fn place(&self, at: Configuration) -> usize
        ensures { result ≡ at.memory * (E.Environment.meaning self.now.environment.now).states + at.state }
    {
        at.memory as usize * self.environment.states() as usize + at.state as usize
    }

    // The greatest load of the configurations of a memory and a set of states, or the empty load if there is none.
    fn greatest(&self, loads: &[M::Load], memory: u8, states: StateSet) -> M::Load
        requires memory { memory < self.now.table.now.memories }
        requires states { states < 2 ^ (E.Environment.meaning self.now.environment.now).states }
        requires room { size (E.Environment.meaning self.now.environment.now) self.now.table.now ≤ length loads.now }
    {
        // the environment is asked for its states once, and not for each outcome
        let base = self.place(Configuration { memory, state: 0 });
        let mut greatest = None;
        for state in states.states() {
            let load = loads[base + state as usize];
            greatest = match greatest {
                Some(most) if self.measure.at_most(load, most) => Some(most),
                _ => Some(load),
            };
        }
        match greatest {
            Some(most) => most,
            None => self.measure.empty(),
        }
    }

    // The load from a configuration, where those that it leads to have theirs.
    fn load_from(&self, loads: &[M::Load], at: Configuration) -> M::Load
        requires room { size (E.Environment.meaning self.now.environment.now) self.now.table.now ≤ length loads.now }
    {
        match self.table.entry(reading(self.environment, at)) {
            Entry::Move { action, next } => {
                let outcomes = self.environment.outcomes(at.state, action);
                let rest = self.greatest(loads, next, outcomes);
                self.measure.join(self.measure.charge(action), rest)
            }
            _ => self.measure.empty(),
        }
    }

    // The first configuration that waits and none of whose outcomes waits.
    fn ready(&self, waiting: &Configurations) -> Option<Configuration>
        ensures { IfSome result (λ c. (c.memory < 4) × (holds waiting.now.states c.memory c.state ≡ true)) }
    {
        for memory in 0..self.table.memories() {
            for state in waiting.at(memory).states() {
                let at = Configuration { memory, state };
                if let Kind::Moving { next, outcomes } = self.picture.kind(at) {
                    if Quorum::Every.met(StateSet::from(outcomes), waiting.at(next)) {
                        return Some(at);
                    }
                }
            }
        }
        None
    }

    // The configurations of the table that move in the picture.
    fn moving(&self) -> Configurations
        ensures { (m s : ℕ) → holds result.states m s ≡ (is_moving self.now.picture.now m s && (nat_lt m self.now.table.now.memories && nat_lt s (E.Environment.meaning self.now.environment.now).states)) }
    {
        let all = StateSet::below(self.environment.states());
        let drawn = self.picture.moving();
        let mut moving = Configurations::none();
        for memory in 0..self.table.memories() {
            moving.add(memory, drawn.at(memory).intersection(all));
        }
        moving
    }

    // Writes the worst load from each configuration to its place: the empty load where it does not move, and where it moves, once all
    // that it leads to have theirs.
    fn settle(&self, loads: &mut [M::Load])
        requires { size (E.Environment.meaning self.now.environment.now) self.now.table.now ≤ length loads.old }
        ensures { (k : ℕ) → size (E.Environment.meaning self.now.environment.now) self.now.table.now ≤ k → slice_index_or loads.new k M.Measure.none ≡ slice_index_or loads.old k M.Measure.none }
    {
        for load in &mut loads[..self.size()] {
            *load = self.measure.empty();
        }
        let mut waiting = self.moving();
        while let Some(at) = self.ready(&waiting) {
            loads[self.place(at)] = self.load_from(loads, at);
            waiting.remove(at);
        }
    }
}

// The greatest load of a full run. Afterwards the reached configurations hold the worst load from there, at the place
// memory * states + state, the other places of configurations the empty load, and later places are as they were. Refused, first, if
// there are fewer loads than configurations, and if the picture has a cycle, since then no load is the greatest.
pub fn worst<M: Measure, E: Environment>(
    measure: &M,
    environment: &E,
    table: &Table,
    picture: &Picture,
    loads: &mut [M::Load],
) -> Result<M::Load, Refusal>
    ensures { MatchResult result (λ _. Loaded M.Measure.none (size (E.Environment.meaning environment.now) table.now) picture.now loads.old loads.new) (λ e. Refused (size (E.Environment.meaning environment.now) table.now) picture.now loads.old loads.new e) }
{
    let runs = Runs {
        measure,
        environment,
        table,
        picture,
    };
    if loads.len() < runs.size() {
        return Err(Refusal::FewLoads);
    }
    if !picture.rests(Quorum::Every) {
        return Err(Refusal::Cycle);
    }
    runs.settle(loads);
    Ok(runs.greatest(loads, 0, environment.initial()))
}
