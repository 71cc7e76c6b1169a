// Every reason for which a call of the library, or the program, refuses what it is given.
#![tactic(auto)]

ghost use Rattle.std.specs.Prelude.{◌≡◌};
ghost use Rattle.refusals.specs.Number.{number};

#[derive(Clone, Copy, Debug, PartialEq, Eq)]
pub enum Refusal {
    // Refused by the input: a file or a number is wrong.
    // A sheet or a job file is too short, or has not the length that its header lays down.
    Length = 1,
    // The first byte of a sheet is not its mark.
    Mark = 2,
    // A count of a header is out of its range.
    Count = 3,
    // The initial set is empty, or a set names a state that the model does not have.
    StateSet = 4,
    // The observation of a state is not one of the model's.
    Observation = 5,
    // A head or a next index is beyond the last record, or not as the format lays it down.
    Index = 6,
    // The next index of a model's record is not greater than the record's own.
    NotRising = 7,
    // A field of a record is out of its range.
    Field = 8,
    // A target stands twice in a chain, or the observations of a chain do not rise.
    Repeated = 9,
    // The bound on memories is not 1 to 4.
    Bound = 10,
    // The amount of an advance is not 1 to 1,000,000.
    Amount = 11,
    // A bar names an observation or an action that the alphabet does not have.
    Bar = 12,
    // The environment has no states, or no initial state.
    NoStart = 13,
    // There are fewer loads than configurations.
    FewLoads = 14,
    // The buffer is shorter than the sheet.
    ShortBuffer = 15,
    // The sheet is written for another alphabet.
    OtherAlphabet = 16,
    // A reading with an observation or at a memory that the table does not have.
    OutsideTable = 17,
    // The rule byte of a job file names no finish rule.
    Rule = 18,
    // Refused by the state: the call comes at the wrong time.
    // The case has not begun.
    NotBegun = 20,
    // The case has begun already.
    AlreadyBegun = 21,
    // The case is searching or none, so that there is no found table.
    NothingFound = 22,
    // The case is found or none, so that there is nothing to advance.
    NotSearching = 23,
    // The picture has a cycle, so that no run has a greatest load.
    Cycle = 24,
    // The entry at a reading is blank.
    BlankEntry = 25,
}

impl Refusal {
    // The number by which the refusal is reported.
    pub fn number(self) -> u8
        ensures { result ≡ number self }
    {
        self as u8
    }
}
