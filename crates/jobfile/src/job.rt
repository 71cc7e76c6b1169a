ghost use Rattle.std.specs.Prelude.{◌≡◌, Err};
ghost use Rattle.jobfile.specs.Job.{JobRead, RuleRead, refused};

use controller::table::MOST_MEMORIES;
use faults::{Fault, JobFault};
use modelsheet::model::Model;
use refusals::Refusal;

// The finish rule that a job asks for.
#[derive(Clone, Copy, Debug, PartialEq, Eq)]
pub enum Rule {
    Strict,
    Patient,
}

// What a job file asks: the controllers of at most `bound` memories that meet the rule in the model.
#[derive(Clone, Copy)]
pub struct Job {
    pub bound: u8,
    pub rule: Rule,
    pub model: Model,
}

// A fault of the file itself.
fn file_fault(refusal: Refusal, byte: usize) -> JobFault
    ensures { refused refusal byte ≡ Err result }
{
    JobFault::File(Fault { refusal, byte })
}

// The rule of a rule byte, which is byte 1 of a job file.
impl TryFrom<u8> for Rule {
    type Error = JobFault;

    ghost try_from_gives = { RuleRead };

    fn try_from(byte: u8) -> Result<Rule, JobFault> {
        match byte {
            0 => Ok(Rule::Strict),
            1 => Ok(Rule::Patient),
            _ => Err(file_fault(Refusal::Rule, 1)),
        }
    }
}

impl Job {
    // Reads a job file. One that is not right is refused by the first check that fails, with the layer and the byte where it does.
    pub fn read(file: &[u8]) -> Result<Job, JobFault>
        ensures { JobRead file.now result }
    {
        let [bound, rule, sheet @ ..] = file else {
            return Err(file_fault(Refusal::Length, file.len()));
        };
        if !(1..=MOST_MEMORIES).contains(bound) {
            return Err(file_fault(Refusal::Bound, 0));
        }
        let rule = Rule::try_from(*rule)?;
        let model = Model::read(sheet)?;
        Ok(Job {
            bound: *bound,
            rule,
            model,
        })
    }
}
