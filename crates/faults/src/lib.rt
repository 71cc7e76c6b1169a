// What is wrong with a job file: a fault of one of its chains, of its sheet, or of the file itself. Each layer has its own type, and a
// fault is carried from the chain through the sheet to the file.
#![tactic(auto)]

ghost use Rattle.std.specs.Prelude.{◌≡◌};
ghost use Rattle.faults.specs.Place.{in_sheet, in_file, layer_of, fault_of, refusal_of, byte_of, head_of};

use refusals::Refusal;

// What is refused, and at which byte.
#[derive(Clone, Copy, Debug, PartialEq, Eq)]
pub struct Fault {
    pub refusal: Refusal,
    pub byte: usize,
}

// The state and the action whose chain has a fault.
#[derive(Clone, Copy, Debug, PartialEq, Eq)]
pub struct Head {
    pub state: u8,
    pub action: u8,
}

// A fault in the chain that begins at a head. The byte counts in the sheet.
#[derive(Clone, Copy, Debug, PartialEq, Eq)]
pub struct ChainFault {
    pub fault: Fault,
    pub head: Head,
}

// A fault of a model sheet: in one of its chains, or in what stands before them. The byte counts in the sheet.
#[derive(Clone, Copy, Debug, PartialEq, Eq)]
pub enum SheetFault {
    Chain(ChainFault),
    Sheet(Fault),
}

// A fault of a job file: in its sheet, or in what stands before it. The byte counts in the file.
#[derive(Clone, Copy, Debug, PartialEq, Eq)]
pub enum JobFault {
    Sheet(SheetFault),
    File(Fault),
}

impl From<ChainFault> for SheetFault {
    ghost from_gives = { λ e r. r ≡ in_sheet e };

    fn from(fault: ChainFault) -> SheetFault {
        SheetFault::Chain(fault)
    }
}

impl From<SheetFault> for JobFault {
    ghost from_gives = { λ e r. r ≡ in_file e };

    fn from(fault: SheetFault) -> JobFault {
        JobFault::Sheet(fault)
    }
}

impl JobFault {
    // The number by which the layer is reported: 1 for a chain, 2 for a sheet, 3 for a job file. The layers themselves are the variants.
    pub fn layer(self) -> u8
        ensures { result ≡ layer_of self }
    {
        match self {
            JobFault::Sheet(SheetFault::Chain(_)) => 1,
            JobFault::Sheet(SheetFault::Sheet(_)) => 2,
            JobFault::File(_) => 3,
        }
    }

    // What is refused and where, whatever the layer.
    pub fn fault(self) -> Fault
        ensures { result ≡ fault_of self }
    {
        match self {
            JobFault::Sheet(SheetFault::Chain(chain)) => chain.fault,
            JobFault::Sheet(SheetFault::Sheet(fault)) | JobFault::File(fault) => fault,
        }
    }

    pub fn refusal(self) -> Refusal
        ensures { result ≡ refusal_of self }
    {
        self.fault().refusal
    }

    pub fn byte(self) -> usize
        ensures { result ≡ byte_of self }
    {
        self.fault().byte
    }

    // Where the fault lies in a chain: the head that the chain belongs to.
    pub fn head(self) -> Option<Head>
        ensures { result ≡ head_of self }
    {
        match self {
            JobFault::Sheet(SheetFault::Chain(chain)) => Some(chain.head),
            _ => None,
        }
    }
}
