ghost use Rattle.std.specs.Prelude.{◌≡◌};
ghost use Rattle.case.specs.Calls.{found_table, Weighed};

use crate::case::{Case, Phase};
use controller::table::Table;
use environment::Environment;
use finish::FinishRule;
use measure::Measure;
use measure::loads::worst;
use refusals::Refusal;

impl<E: Environment, R: FinishRule> Case<E, R> {
    // Where the case stands.
    pub fn phase(&self) -> Phase
        ensures { result ≡ self.now.phase }
    {
        self.phase
    }

    // The found table, while there is one.
    pub fn found(&self) -> Option<Table>
        ensures { result ≡ found_table self.now }
    {
        match self.phase {
            Phase::Found => Some(self.walk.table),
            Phase::New | Phase::Searching | Phase::Exhausted => None,
        }
    }

    // The greatest load of a full run of the found table.
    pub fn worst<M: Measure>(&self, measure: &M, loads: &mut [M::Load]) -> Result<M::Load, Refusal>
        ensures { Weighed M.Measure.none (E.Environment.meaning self.now.environment) self.now loads.old loads.new result }
    {
        match self.phase {
            Phase::New => Err(Refusal::NotBegun),
            Phase::Searching | Phase::Exhausted => Err(Refusal::NothingFound),
            Phase::Found => worst(
                measure,
                &self.environment,
                &self.walk.table,
                &self.picture,
                loads,
            ),
        }
    }
}
