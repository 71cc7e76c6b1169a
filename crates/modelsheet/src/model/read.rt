ghost use Rattle.std.specs.Prelude.{◌≡◌, ℕ, List, Ok, Err};
ghost use Rattle.environment.specs.System.{System, Sound, empty as empty_environment};
ghost use Rattle.modelsheet.specs.Judge.{judge};
ghost use Rattle.modelsheet.specs.Says.{Read, Says, system_of};

use crate::model::Model;
use crate::model::sheet::Sheet;
use faults::SheetFault;

impl Model {
    // Reads a model sheet. A sheet that is not right is refused by the first check that fails, with the byte where it does.
    pub fn read(sheet: &[u8]) -> Result<Model, SheetFault>
        ensures { Read sheet.now result }
    {
        let sheet = Sheet::lay(sheet)?;
        let sets = sheet.sets()?;
        let sights = sheet.sights()?;
        let leads = sheet.heads()?;
        Ok(Model {
            states: sheet.shape.states,
            actions: sheet.shape.actions,
            observations: sheet.shape.observations,
            initial: sets.initial,
            goal: sets.goal,
            sights,
            leads,
        })
    }

    // The empty environment: all counts and sets are zero.
    fn empty() -> Model
        ensures { system_of result ≡ empty_environment }
    {
        Model {
            states: 0,
            actions: 0,
            observations: 0,
            initial: 0,
            goal: 0,
            sights: [0; 64],
            leads: [0; 512],
        }
    }

    // The environment of a model sheet: what the sheet says, or the empty environment where the sheet is refused.
    pub fn of(sheet: &[u8]) -> Model
        ensures accepted { judge sheet.now ≡ Ok tt → Says sheet.now (system_of result) }
        ensures refused { (f : SheetFault) → judge sheet.now ≡ Err f → system_of result ≡ empty_environment }
    {
        // a match: `unwrap_or_else` was tried, and the check could not build its plan for it
        match Model::read(sheet) {
            Ok(model) => model,
            Err(_) => Model::empty(),
        }
    }
}

// A sheet says one system: no two that keep the law of environments are said by the same bytes.
pub fn says_one_system()
    ensures { (b : List ℕ) (x y : System) → Sound x → Sound y → Says b x → Says b y → x ≡ y }
{}
