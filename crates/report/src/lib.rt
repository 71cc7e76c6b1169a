// The report: the lines that the program prints for a verdict.
#![tactic(auto)]

ghost use Rattle.std.specs.Prelude.{◌≡◌, IfOk, Some, string_bytes};
ghost use Rattle.report.specs.Text.{entry_text, row_lines, table_lines, worst_line, fault_line, report_text};

use controller::entry::Entry;
use controller::place::Place;
use controller::table::Table;
use faults::JobFault;
use std::alloc::{AllocError, Global};
use std::fmt;

// What came of a job: how many tables were judged and what the search ended with, or why the job was refused.
#[derive(Clone, Copy)]
pub enum Verdict {
    // The first controller that meets the rule, and its worst number of steps; none where its picture has a cycle.
    Found {
        judged: u32,
        table: Table,
        worst: Option<u32>,
    },
    // No controller within the bound on memories meets the rule.
    Exhausted {
        judged: u32,
    },
    // The search is not at its end.
    Open {
        judged: u32,
    },
    // The job was refused: a verdict like the others, and no error, since every job has its lines and the planner cannot fail.
    Refused(JobFault),
}

// The line of the entry at a place; a blank one has no line.
#[derive(Clone, Copy)]
struct EntryLine<'a> {
    table: &'a Table,
    at: Place,
}

impl fmt::Display for EntryLine<'_> {
    ghost output = { λ l. Some (entry_text l.table.now l.at.memory l.at.observation) };

    fn fmt<W: fmt::Write>(&self, f: &mut fmt::Formatter<W>) -> fmt::Result {
        let Place {
            memory,
            observation,
        } = self.at;
        match self.table.entry(self.at) {
            Entry::Blank => Ok(()),
            Entry::Stop => writeln!(f, "{memory} {observation} stop"),
            Entry::Move { action, next } => writeln!(f, "{memory} {observation} {action} {next}"),
        }
    }
}

// The lines of a memory's entries, by observation.
#[derive(Clone, Copy)]
struct RowLines<'a> {
    table: &'a Table,
    memory: u8,
}

impl fmt::Display for RowLines<'_> {
    ghost output = { λ l. Some (row_lines l.table.now l.memory) };

    #[tactic(auto, using(crate::proofs::Turns::start, crate::proofs::Turns::turn))]
    fn fmt<W: fmt::Write>(&self, f: &mut fmt::Formatter<W>) -> fmt::Result {
        let RowLines { table, memory } = *self;
        for observation in 0..table.observations() {
            let at = Place {
                memory,
                observation,
            };
            let line = EntryLine { table, at };
            write!(f, "{line}")?;
        }
        Ok(())
    }
}

// The lines of a table's entries, by memory and then observation.
#[derive(Clone, Copy)]
struct TableLines<'a>(&'a Table);

impl fmt::Display for TableLines<'_> {
    ghost output = { λ l. Some (table_lines l.0.now) };

    #[tactic(auto, using(crate::proofs::Turns::start, crate::proofs::Turns::turn))]
    fn fmt<W: fmt::Write>(&self, f: &mut fmt::Formatter<W>) -> fmt::Result {
        let table = self.0;
        for memory in 0..table.memories() {
            let row = RowLines { table, memory };
            write!(f, "{row}")?;
        }
        Ok(())
    }
}

// The worst number of steps, or a dash where there is none.
#[derive(Clone, Copy)]
struct WorstLine(Option<u32>);

impl fmt::Display for WorstLine {
    ghost output = { λ l. Some (worst_line l.0) };

    fn fmt<W: fmt::Write>(&self, f: &mut fmt::Formatter<W>) -> fmt::Result {
        match self.0 {
            Some(steps) => writeln!(f, "worst {steps}"),
            None => writeln!(f, "worst -"),
        }
    }
}

// The line of a fault: its refusal, layer and byte, and the state and the action where it lies in a chain.
#[derive(Clone, Copy)]
struct FaultLine(JobFault);

impl fmt::Display for FaultLine {
    ghost output = { λ l. Some (fault_line l.0) };

    fn fmt<W: fmt::Write>(&self, f: &mut fmt::Formatter<W>) -> fmt::Result {
        let fault = self.0;
        let refusal = fault.refusal().number();
        let layer = fault.layer();
        let byte = fault.byte();
        write!(f, "refused {refusal} layer {layer} byte {byte}")?;
        if let Some(head) = fault.head() {
            let state = head.state;
            let action = head.action;
            write!(f, " state {state} action {action}")?;
        }
        writeln!(f)
    }
}

impl fmt::Display for Verdict {
    ghost output = { λ v. Some (report_text v) };

    fn fmt<W: fmt::Write>(&self, f: &mut fmt::Formatter<W>) -> fmt::Result {
        match self {
            Verdict::Found {
                judged,
                table,
                worst,
            } => {
                let entries = TableLines(table);
                let worst = WorstLine(*worst);
                write!(f, "found {judged}\n{entries}{worst}")
            }
            Verdict::Exhausted { judged } => writeln!(f, "none {judged}"),
            Verdict::Open { judged } => writeln!(f, "open {judged}"),
            Verdict::Refused(fault) => {
                let fault = FaultLine(*fault);
                write!(f, "{fault}")
            }
        }
    }
}

// The text of a verdict, as the program prints it.
pub fn report(heap: Global, verdict: &Verdict) -> Result<String, AllocError>
    ensures { IfOk result (λ s. string_bytes s ≡ report_text verdict.now) }
{
    verdict.to_string(heap)
}

#[cfg(test)]
mod tests {
    use super::*;
    use faults::{ChainFault, Fault, Head, SheetFault};
    use refusals::Refusal;
    use std::test::Fail;

    fn place(memory: u8, observation: u8) -> Place {
        Place {
            memory,
            observation,
        }
    }

    #[test]
    fn a_found_controller_has_its_entries_by_memory_and_observation(
        rt: HostRuntime,
    ) -> Result<(), Fail> {
        let mut table = Table::blank(2, 2, 3);
        table.set(place(1, 0), Entry::Stop);
        table.set(place(0, 2), Entry::Move { action: 0, next: 1 });
        table.set(place(0, 0), Entry::Move { action: 1, next: 0 });
        let verdict = Verdict::Found {
            judged: 9,
            table,
            worst: Some(2),
        };
        let text = report(rt.alloc(), &verdict)?;
        assert_eq!(rt;
            text.as_str(),
            "found 9\n0 0 1 0\n0 2 0 1\n1 0 stop\nworst 2\n"
        );
        Ok(())
    }

    #[test]
    fn a_controller_that_may_go_round_has_no_worst_number(rt: HostRuntime) -> Result<(), Fail> {
        let verdict = Verdict::Found {
            judged: 1234567,
            table: Table::blank(4, 8, 16),
            worst: None,
        };
        let text = report(rt.alloc(), &verdict)?;
        assert_eq!(rt; text.as_str(), "found 1234567\nworst -\n");
        Ok(())
    }

    #[test]
    fn a_fault_in_a_chain_names_its_state_and_action(rt: HostRuntime) -> Result<(), Fail> {
        let fault = ChainFault {
            fault: Fault {
                refusal: Refusal::NotRising,
                byte: 34,
            },
            head: Head {
                state: 0,
                action: 1,
            },
        };
        let text = report(
            rt.alloc(),
            &Verdict::Refused(JobFault::Sheet(SheetFault::Chain(fault))),
        )?;
        assert_eq!(rt;
            text.as_str(),
            "refused 7 layer 1 byte 34 state 0 action 1\n"
        );
        let file = JobFault::File(Fault {
            refusal: Refusal::Bound,
            byte: 0,
        });
        let short = report(rt.alloc(), &Verdict::Refused(file))?;
        assert_eq!(rt; short.as_str(), "refused 10 layer 3 byte 0\n");
        Ok(())
    }
}
