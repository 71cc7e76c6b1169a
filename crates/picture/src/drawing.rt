ghost use Rattle.std.specs.Prelude.{◌≡◌, ◌<◌, false};
ghost use Rattle.picture.specs.Drawn.{PictureOf};
ghost use Rattle.picture.specs.Kinds.{is_reached};
ghost use Rattle.picture.specs.Put.{Put};
ghost use Rattle.picture.specs.Runs.{kind_of, OfReached};

use crate::steps::Step;
use crate::{Configuration, Configurations, Kind, Picture};
use controller::entry::Entry;
use controller::place::Place;
use controller::table::Table;
use environment::Environment;
use sets::StateSet;

// Where the entry stands that a run reads at a configuration: for its memory and what is seen of its state.
pub fn reading<E: Environment>(environment: &E, at: Configuration) -> Place
    ensures memory { result.memory ≡ at.memory }
    ensures observation { result.observation ≡ (E.Environment.meaning environment.now).observation at.state }
{
    Place {
        memory: at.memory,
        observation: environment.observation(at.state),
    }
}

// What becomes of a run at a configuration.
fn kind_of<E: Environment>(environment: &E, table: &Table, at: Configuration) -> Kind
    ensures value { result ≡ kind_of (E.Environment.meaning environment.now) table.now at.memory at.state }
    ensures reached { OfReached result }
{
    match table.entry(reading(environment, at)) {
        Entry::Blank => Kind::Open,
        Entry::Stop => {
            if environment.goal().contains(at.state) {
                Kind::StoppedInGoal
            } else {
                Kind::StoppedOffGoal
            }
        }
        Entry::Move { action, next } => {
            let outcomes = environment.outcomes(at.state, action);
            if outcomes.is_empty() {
                Kind::Stuck
            } else {
                Kind::Moving {
                    next,
                    outcomes: u64::from(outcomes),
                }
            }
        }
    }
}

impl Picture {
    // Writes down the kind of a configuration that is not reached yet.
    fn put(&mut self, at: Configuration, kind: Kind)
        requires memory { at.memory < 4 }
        requires state { at.state < 64 }
        requires fresh { is_reached self.old at.memory at.state ≡ false }
        requires reached { OfReached kind }
        ensures { Put at.memory at.state kind self.old self.new }
    {
        self.reached.insert(at);
        match kind {
            Kind::NotReached => unreachable(),
            Kind::Open => self.opened.insert(at),
            Kind::StoppedInGoal => self.finished.insert(at),
            Kind::StoppedOffGoal => self.missed.insert(at),
            Kind::Stuck => self.stuck.insert(at),
            Kind::Moving { next, outcomes } => self.steps.set(at, Step { next, outcomes }),
        }
    }

    // Makes this the picture of the table, whatever it was before: follows all runs, each configuration once.
    pub fn draw<E: Environment>(&mut self, environment: &E, table: &Table)
        ensures { PictureOf (E.Environment.meaning environment.now) table.now self.new }
    {
        self.reached = Configurations::none();
        self.opened = Configurations::none();
        self.finished = Configurations::none();
        self.missed = Configurations::none();
        self.stuck = Configurations::none();
        let mut marks = Configurations::none();
        marks.add(0, environment.initial());
        while let Some(at) = marks.without(&self.reached).first() {
            let kind = kind_of(environment, table, at);
            if let Kind::Moving { next, outcomes } = kind {
                marks.add(next, StateSet::from(outcomes));
            }
            self.put(at, kind);
        }
    }
}
