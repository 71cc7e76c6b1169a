// The planner: from a job file to the verdict that is reported.
#![tactic(auto)]

ghost use Rattle.std.specs.Prelude.{◌≡◌, ◌≤◌, MatchOption};
ghost use Rattle.case.specs.declared.case.Phase.TheVariants.{Found};
ghost use Rattle.measure.specs.Refused.{Straight};
ghost use Rattle.planner.specs.Verdicts.{Answered, Searched};

use case::case::{Case, Phase};
use environment::Environment;
use finish::{FinishRule, Patient, Strict};
use jobfile::job::{Job, Rule};
use measure::Steps;
use modelsheet::model::Model;
use report::Verdict;

const ADVANCES: u32 = 100;

const AMOUNT: u32 = 1_000_000;

// The worst number of steps of the found table; none where its picture has a cycle, which is all that a found case can refuse: there are
// loads for every configuration of every table.
fn worst_steps<E: Environment, R: FinishRule>(case: &Case<E, R>) -> Option<u32>
    requires { case.now.phase ≡ Found }
    ensures { MatchOption result (Straight case.now.picture → ⊥) (λ _. Straight case.now.picture) }
{
    // as many as the largest table has configurations
    let mut loads = [0; 256];
    case.worst(&Steps, &mut loads).ok()
}

// Searches for the first controller, by at most 100 advances of 1,000,000 tables.
fn search<R: FinishRule + Drop>(model: Model, rule: R, bound: u8) -> Verdict
    requires some { 1 ≤ bound }
    requires few { bound ≤ 4 }
    requires state { 1 ≤ model.states }
    requires initial { 1 ≤ model.initial }
    ensures { Searched bound model.actions model.observations result }
{
    let mut case = Case::new(model, rule);
    if case.begin(bound).is_err() {
        return unreachable();
    }
    let mut judged = 0;
    'advances: for _ in 0..ADVANCES {
        let Ok(advance) = case.advance(AMOUNT) else {
            return unreachable();
        };
        judged += advance.judged;
        if let Some(table) = case.found() {
            let worst = worst_steps(&case);
            return Verdict::Found {
                judged,
                table,
                worst,
            };
        }
        if advance.phase == Phase::Exhausted {
            return Verdict::Exhausted { judged };
        }
    }
    Verdict::Open { judged }
}

// What comes of a job file. Each rule is another type of case, so that the search is chosen here.
pub fn solve(file: &[u8]) -> Verdict
    ensures { Answered file.now result }
{
    match Job::read(file) {
        Ok(job) => match job.rule {
            Rule::Strict => search(job.model, Strict, job.bound),
            Rule::Patient => search(job.model, Patient, job.bound),
        },
        Err(fault) => Verdict::Refused(fault),
    }
}

#[cfg(test)]
mod tests {
    use super::*;
    use std::test::Fail;

    // A shuttle of two places.
    const SHUTTLE: [u8; 39] = [
        77, 4, 2, 3, 3, 1, 0, 0, 0, 0, 0, 0, 0, 2, 0, 0, 0, 0, 0, 0, 0, 0, 0, 2, 2, 0, 1, 0, 1, 2,
        0, 3, 0, 3, 0, 0, 0, 1, 0,
    ];

    // With two memories it has two controllers by the strict rule: after 9 tables, and after 16 more. The order ends 11 tables later.
    #[test]
    fn next_goes_on_behind_the_controller_that_was_found(rt: HostRuntime) -> Result<(), Fail> {
        let mut case = Case::new(Model::read(&SHUTTLE)?, Strict);
        case.begin(2)?;
        let first = case.advance(AMOUNT)?;
        assert_eq!(rt; first.phase, Phase::Found);
        assert_eq!(rt; first.judged, 9);
        assert_eq!(rt; case.next()?, Phase::Searching);
        let second = case.advance(AMOUNT)?;
        assert_eq!(rt; second.phase, Phase::Found);
        assert_eq!(rt; second.judged, 16);
        assert_eq!(rt; case.next()?, Phase::Searching);
        let last = case.advance(AMOUNT)?;
        assert_eq!(rt; last.phase, Phase::Exhausted);
        assert_eq!(rt; last.judged, 11);
        Ok(())
    }
}
