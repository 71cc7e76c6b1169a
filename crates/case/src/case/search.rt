ghost use Rattle.std.specs.Prelude.{◌≡◌};
ghost use Rattle.case.specs.Calls.{Answers, Advanced, Stepped, Left, Retreated};
ghost use Rattle.case.specs.declared.case.Call.TheVariants.{Advance as advancing, Next as leaving};
ghost use Rattle.case.specs.declared.case.Phase.TheVariants.{Searching};

use crate::case::{Advance, Call, Case, Phase};
use environment::Environment;
use finish::FinishRule;
use picture::reading;
use refusals::Refusal;

impl<E: Environment, R: FinishRule> Case<E, R> {
    // To the next table of the order that does not lie below this one, if there is one.
    fn retreat(&mut self)
        ensures { Retreated self.old self.new }
    {
        if self.walk.retreat(&self.bars) {
            self.phase = Phase::Searching;
        } else {
            self.phase = Phase::Exhausted;
        }
    }

    // Judges the table that the walk stands at: it meets the rule, or the walk goes on to the next one, below it or behind it.
    fn judge(&mut self)
        requires { self.old.phase ≡ Searching }
        ensures { Stepped (E.Environment.meaning self.old.environment) self.old self.new }
    {
        self.picture.draw(&self.environment, &self.walk.table);
        if self.rule.rejected(&self.picture) {
            self.retreat();
            return;
        }
        match self.picture.first_open() {
            None => self.phase = Phase::Found,
            Some(open) => {
                if !self.walk.descend(reading(&self.environment, open)) {
                    self.retreat();
                }
            }
        }
    }

    // Judges tables in the order of the tree: up to one that meets the rule, or to the last one, or as many as the amount.
    pub fn advance(&mut self, amount: u32) -> Result<Advance, Refusal>
        ensures { Answers (E.Environment.meaning self.old.environment) (advancing amount) (λ a. Advanced (E.Environment.meaning self.old.environment) amount a) self.old self.new result }
    {
        self.admit(Call::Advance { amount })?;
        let mut judged = 0;
        'tables: for _ in 0..amount {
            self.judge();
            judged += 1;
            if self.phase != Phase::Searching {
                return Ok(Advance {
                    phase: self.phase,
                    judged,
                });
            }
        }
        Ok(Advance {
            phase: self.phase,
            judged,
        })
    }

    // Leaves a found table for the one after it in the order, which is not judged yet.
    pub fn next(&mut self) -> Result<Phase, Refusal>
        ensures { Answers (E.Environment.meaning self.old.environment) leaving Left self.old self.new result }
    {
        self.admit(Call::Next)?;
        self.retreat();
        Ok(self.phase)
    }
}
