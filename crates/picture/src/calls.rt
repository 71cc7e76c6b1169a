ghost use Rattle.std.specs.Prelude.{◌≡◌, ℕ, ◌<◌, false, MatchOption};
ghost use Rattle.configurations.specs.Holds.{holds};
ghost use Rattle.picture.specs.Kinds.{kind_at, step_at, is_open, is_moving, FirstOpen};
ghost use Rattle.picture.specs.declared.Kind.TheVariants.{NotReached};

use crate::steps::{Step, Steps};
use crate::{Configuration, Configurations, Kind, Picture};

impl Picture {
    // The picture in which nothing is reached.
    pub fn blank() -> Picture
        ensures { (m s : ℕ) → kind_at result m s ≡ NotReached }
    {
        Picture {
            reached: Configurations::none(),
            opened: Configurations::none(),
            finished: Configurations::none(),
            missed: Configurations::none(),
            stuck: Configurations::none(),
            steps: Steps::none(),
        }
    }

    // The configurations that are reached, and those of each kind among them: a call for each, since one call for all would be a match over
    // the fields.
    pub fn reached(&self) -> Configurations
        ensures { result ≡ self.now.reached }
    {
        self.reached
    }

    pub fn open(&self) -> Configurations
        ensures { result ≡ self.now.opened }
    {
        self.opened
    }

    pub fn in_goal(&self) -> Configurations
        ensures { result ≡ self.now.finished }
    {
        self.finished
    }

    pub fn off_goal(&self) -> Configurations
        ensures { result ≡ self.now.missed }
    {
        self.missed
    }

    pub fn stuck(&self) -> Configurations
        ensures { result ≡ self.now.stuck }
    {
        self.stuck
    }

    // The configurations that move on from where they are.
    pub fn moving(&self) -> Configurations
        ensures { (m s : ℕ) → holds result.states m s ≡ is_moving self.now m s }
    {
        let filled = self.reached.without(&self.opened);
        filled
            .without(&self.finished)
            .without(&self.missed)
            .without(&self.stuck)
    }

    // What a configuration does, if it moves.
    pub(crate) fn step(&self, at: Configuration) -> Step
        requires memory { at.memory < 4 }
        requires state { at.state < 64 }
        ensures { result ≡ step_at self.now at.memory at.state }
    {
        self.steps.at(at)
    }

    // The kind of a configuration; one that no picture has is not reached.
    pub fn kind(&self, at: Configuration) -> Kind
        ensures { result ≡ kind_at self.now at.memory at.state }
    {
        if !self.reached.contains(at) {
            Kind::NotReached
        } else if self.opened.contains(at) {
            Kind::Open
        } else if self.finished.contains(at) {
            Kind::StoppedInGoal
        } else if self.missed.contains(at) {
            Kind::StoppedOffGoal
        } else if self.stuck.contains(at) {
            Kind::Stuck
        } else {
            let Step { next, outcomes } = self.step(at);
            Kind::Moving { next, outcomes }
        }
    }

    // The open configuration of smallest number: smallest memory, then smallest state.
    pub fn first_open(&self) -> Option<Configuration>
        ensures { MatchOption result ((m s : ℕ) → is_open self.now m s ≡ false) (λ c. FirstOpen self.now c) }
    {
        self.open().first()
    }
}
