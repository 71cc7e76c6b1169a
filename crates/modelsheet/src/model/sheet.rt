ghost use Rattle.std.specs.Prelude.{◌≡◌, ℕ, ◌+◌, ◌*◌, ◌<◌, ◌≤◌, List, [], length, Ok, Err, if◌then◌else◌};
ghost use Rattle.refusals.specs.Range.{outside};
ghost use Rattle.refusals.specs.declared.Refusal.TheVariants.{Count};
ghost use Rattle.modelsheet.specs.Judge.{Judged, fault_of, refuse, judge_header, judge_sets, judge_sights, judge_record, judge_chain, judge_head, judge_heads};
ghost use Rattle.modelsheet.specs.Laid.{Laid, SetsRead, SightsRead, Marks, RecordRead, ChainRead, HeadsRead};
ghost use Rattle.modelsheet.specs.Sheet.{states_of, actions_of, records_of, head_of, word};

use environment::{MOST_ACTIONS, MOST_OBSERVATIONS, MOST_STATES};
use faults::{ChainFault, Fault, Head, SheetFault};
use refusals::Refusal;
use sets::StateSet;
use std::marker::Model;

const MARK: u8 = 77;

const INITIAL: usize = 5;

const GOAL: usize = 13;

const HEADER: usize = 21;

// The counts of a sheet's header.
#[derive(Clone, Copy)]
pub(super) struct Shape {
    pub(super) states: u8,
    pub(super) actions: u8,
    pub(super) observations: u8,
    pub(super) records: u8,
}

impl Shape {
    // How many heads there are: one for each state and action.
    fn heads(self) -> usize
        ensures { result ≡ self.states * self.actions }
    {
        self.states as usize * self.actions as usize
    }

    // The byte of the first head.
    fn first_head(self) -> usize
        ensures { result ≡ 21 + self.states }
    {
        HEADER + self.states as usize
    }

    // The byte of the first record.
    fn first_record(self) -> usize
        ensures { result ≡ 21 + self.states + self.states * self.actions }
    {
        self.first_head() + self.heads()
    }

    // The length of a sheet with these counts.
    fn length(self) -> usize
        ensures { result ≡ 21 + self.states + self.states * self.actions + 2 * self.records }
    {
        self.first_record() + 2 * self.records as usize
    }
}

// The number of eight bytes from a place on, the least first.
fn word_at(sheet: &[u8], at: usize) -> u64
    requires { at + 8 ≤ length sheet.now }
    ensures { result ≡ word sheet.now at }
{
    u64::from_le_bytes(*sheet[at..].first_chunk().unwrap())
}

// A fault of what stands before the chains.
fn sheet_fault(refusal: Refusal, byte: usize) -> SheetFault
    ensures { refuse refusal byte ≡ Err result }
{
    SheetFault::Sheet(Fault { refusal, byte })
}

// A count of the header, at its byte, is 1 to the most that there may be.
fn judge_count(count: u8, most: u8, byte: usize) -> Result<(), SheetFault>
    ensures { result ≡ (if outside most count then refuse Count byte else Ok tt) }
{
    if (1..=most).contains(&count) {
        Ok(())
    } else {
        Err(sheet_fault(Refusal::Count, byte))
    }
}

// A fault of the chain of a head.
fn chain_fault(head: Head, refusal: Refusal, byte: usize) -> ChainFault
    ensures { result ≡ fault_of head.state head.action refusal byte }
{
    ChainFault {
        fault: Fault { refusal, byte },
        head,
    }
}

// The sets of states that a sheet names, as masks.
#[derive(Clone, Copy)]
pub(super) struct Sets {
    pub(super) initial: u64,
    pub(super) goal: u64,
}

// A record: its target, and the index of the record that follows it.
#[derive(Clone, Copy)]
struct Record {
    target: u8,
    next: u8,
}

// A sheet whose header is right and which is as long as its counts lay down. A clause sees its bytes.
#[derive(Drop)]
pub(super) struct Sheet<'a> {
    bytes: &'a [u8],
    pub(super) shape: Shape,
}

impl<'a> Model for Sheet<'a> {
    ghost Value = { List ℕ };

    ghost view = { λ s. s.bytes.now };

    ghost invariant = { λ s. Laid s.bytes.now s.shape };
}

impl<'a> Sheet<'a> {
    // Judges the header and the length.
    pub(super) fn lay(bytes: &'a [u8]) -> Result<Sheet<'a>, SheetFault>
        ensures { Judged (judge_header bytes.now) (λ sheet. sheet ≡ bytes.now) result }
    {
        if bytes.len() < HEADER {
            return Err(sheet_fault(Refusal::Length, bytes.len()));
        }
        if bytes[0] != MARK {
            return Err(sheet_fault(Refusal::Mark, 0));
        }
        let shape = Shape {
            states: bytes[1],
            actions: bytes[2],
            observations: bytes[3],
            records: bytes[4],
        };
        judge_count(shape.states, MOST_STATES, 1)?;
        judge_count(shape.actions, MOST_ACTIONS, 2)?;
        judge_count(shape.observations, MOST_OBSERVATIONS, 3)?;
        if bytes.len() != shape.length() {
            return Err(sheet_fault(Refusal::Length, bytes.len()));
        }
        Ok(Sheet { bytes, shape })
    }

    // The initial set, which is not empty, and the goal set.
    pub(super) fn sets(&self) -> Result<Sets, SheetFault>
        ensures { Judged (judge_sets self.now) (SetsRead self.now) result }
    {
        let initial = word_at(self.bytes, INITIAL);
        if initial == 0 || !StateSet::from(initial).within(self.shape.states) {
            return Err(sheet_fault(Refusal::StateSet, INITIAL));
        }
        let goal = word_at(self.bytes, GOAL);
        if !StateSet::from(goal).within(self.shape.states) {
            return Err(sheet_fault(Refusal::StateSet, GOAL));
        }
        Ok(Sets { initial, goal })
    }

    // The observation of each state.
    pub(super) fn sights(&self) -> Result<[u8; 64], SheetFault>
        ensures { Judged (judge_sights self.now (states_of self.now) 0) (SightsRead self.now) result }
    {
        let sights = &self.bytes[HEADER..self.shape.first_head()];
        let observations = self.shape.observations;
        if let Some(state) = sights.iter().position(|&sight| sight >= observations) {
            return Err(sheet_fault(Refusal::Observation, HEADER + state));
        }
        let mut seen = [0; 64];
        seen[..sights.len()].copy_from_slice(sights);
        Ok(seen)
    }

    // A record on the chain of a head, where `met` holds the targets of the records before it. The states of a sheet are few enough for a
    // set to hold any target.
    fn record(&self, head: Head, met: StateSet, index: u8) -> Result<Record, ChainFault>
        requires some { 1 ≤ index }
        requires within { index ≤ records_of self.now }
        ensures judged { (before : List ℕ) → Marks met before → Judged (judge_record self.now head.state head.action before index) (RecordRead self.now index) result }
        ensures few { states_of self.now ≤ 64 }
    {
        let byte = self.shape.first_record() + 2 * (index as usize - 1);
        let target = self.bytes[byte];
        if target >= self.shape.states {
            return Err(chain_fault(head, Refusal::Field, byte));
        }
        if met.contains(target) {
            return Err(chain_fault(head, Refusal::Repeated, byte));
        }
        let next = self.bytes[byte + 1];
        if next > self.shape.records {
            return Err(chain_fault(head, Refusal::Index, byte + 1));
        }
        if next != 0 && next <= index {
            return Err(chain_fault(head, Refusal::NotRising, byte + 1));
        }
        Ok(Record { target, next })
    }

    // The mask of the set of the targets on the chain of a head, from its first record on.
    fn chain(&self, head: Head, first: u8) -> Result<u64, ChainFault>
        requires { first ≤ records_of self.now }
        ensures { Judged (judge_chain self.now head.state head.action (records_of self.now) [] first) (ChainRead self.now first) result }
    {
        // no iterator: the next index comes from a judging that can fail and needs what was met so far
        let mut met = StateSet::EMPTY;
        let mut index = first;
        'records: while index != 0 {
            let record = self.record(head, met, index)?;
            met = met.with(record.target);
            index = record.next;
        }
        Ok(u64::from(met))
    }

    // The chain of head k, which is that of state k / actions and action k % actions: the set of its targets.
    fn head(&self, k: usize) -> Result<u64, ChainFault>
        requires { k < states_of self.now * actions_of self.now }
        ensures { Judged (judge_head self.now k) (ChainRead self.now (head_of self.now k)) result }
    {
        let actions = self.shape.actions as usize;
        let head = Head {
            state: (k / actions) as u8,
            action: (k % actions) as u8,
        };
        let byte = self.shape.first_head() + k;
        let first = self.bytes[byte];
        if first > self.shape.records {
            return Err(chain_fault(head, Refusal::Index, byte));
        }
        self.chain(head, first)
    }

    // The masks of the outcome sets of all states and actions, in the order of their heads.
    pub(super) fn heads(&self) -> Result<[u64; 512], ChainFault>
        ensures { Judged (judge_heads self.now (states_of self.now * actions_of self.now) 0) (HeadsRead self.now) result }
    {
        let mut leads = [0; 512];
        'heads: for (k, lead) in leads[..self.shape.heads()].iter_mut().enumerate() {
            *lead = self.head(k)?;
        }
        Ok(leads)
    }
}
