ghost use Rattle.std.specs.Prelude.{◌≡◌};
ghost use Rattle.case.specs.Calls.{admitted, refusal, Answers, Barred, Begun, Fresh};
ghost use Rattle.case.specs.declared.case.Call.TheVariants.{Bar as barring, Begin as beginning};
ghost use Rattle.case.specs.declared.case.Phase.TheVariants.{New};

use crate::case::{Call, Case, Phase};
use controller::table::MOST_MEMORIES;
use environment::Environment;
use finish::FinishRule;
use picture::Picture;
use refusals::Refusal;
use tree::bars::Bars;
use tree::walk::Walk;

const LARGEST_AMOUNT: u32 = 1_000_000;

impl<E: Environment, R: FinishRule> Case<E, R> {
    // A new case, with nothing barred.
    pub fn new(environment: E, rule: R) -> Case<E, R>
        ensures { Fresh environment rule result }
    {
        Case {
            environment,
            rule,
            phase: Phase::New,
            bars: Bars::none(),
            walk: Walk::root(1, 0, 0),
            picture: Picture::blank(),
        }
    }

    fn admit_bar(&self, observation: u8, action: u8) -> Result<(), Refusal>
        ensures { result ≡ admitted (refusal (E.Environment.meaning self.now.environment) New (barring observation action)) }
    {
        if observation >= self.environment.observations() || action >= self.environment.actions() {
            return Err(Refusal::Bar);
        }
        Ok(())
    }

    fn admit_begin(&self, bound: u8) -> Result<(), Refusal>
        ensures { result ≡ admitted (refusal (E.Environment.meaning self.now.environment) New (beginning bound)) }
    {
        if !(1..=MOST_MEMORIES).contains(&bound) {
            return Err(Refusal::Bound);
        }
        if self.environment.states() == 0 || self.environment.initial().is_empty() {
            return Err(Refusal::NoStart);
        }
        Ok(())
    }

    // Whether the case takes the call, by its state and by what the call is given: the table of refusals, line for line.
    pub(super) fn admit(&self, call: Call) -> Result<(), Refusal>
        ensures { result ≡ admitted (refusal (E.Environment.meaning self.now.environment) self.now.phase call) }
    {
        match (self.phase, call) {
            (
                Phase::New,
                Call::Bar {
                    observation,
                    action,
                },
            ) => self.admit_bar(observation, action),
            (Phase::New, Call::Begin { bound }) => self.admit_begin(bound),
            (Phase::New, Call::Advance { .. } | Call::Next) => Err(Refusal::NotBegun),
            (_, Call::Bar { .. } | Call::Begin { .. }) => Err(Refusal::AlreadyBegun),
            (Phase::Searching, Call::Advance { amount }) => {
                if !(1..=LARGEST_AMOUNT).contains(&amount) {
                    Err(Refusal::Amount)
                } else {
                    Ok(())
                }
            }
            (_, Call::Advance { .. }) => Err(Refusal::NotSearching),
            (Phase::Found, Call::Next) => Ok(()),
            (_, Call::Next) => Err(Refusal::NothingFound),
        }
    }

    // Bars an action at an observation, while the case is new; it may be barred already. Two numbers, as the call is laid down.
    pub fn bar(&mut self, observation: u8, action: u8) -> Result<(), Refusal>
        ensures { Answers (E.Environment.meaning self.old.environment) (barring observation action) (λ _. Barred observation action) self.old self.new result }
    {
        self.admit(Call::Bar {
            observation,
            action,
        })?;
        self.bars.add(observation, action);
        Ok(())
    }

    // Makes a new case searching at the root, for controllers of at most `bound` memories.
    pub fn begin(&mut self, bound: u8) -> Result<(), Refusal>
        ensures { Answers (E.Environment.meaning self.old.environment) (beginning bound) (λ _. Begun (E.Environment.meaning self.old.environment) bound) self.old self.new result }
    {
        self.admit(Call::Begin { bound })?;
        let actions = self.environment.actions();
        let observations = self.environment.observations();
        self.walk = Walk::root(bound, actions, observations);
        self.phase = Phase::Searching;
        Ok(())
    }
}
