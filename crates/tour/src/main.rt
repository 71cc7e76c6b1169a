// A tour of the environments: asks each of them every question but `legal` and prints what it answers. The figures of `stdout` are
// worked by hand from the definitions in docs/MODEL.md.
#![tactic(auto)]

ghost use Rattle.std.specs.Prelude.{◌≡◌, ◌*◌, ◌<◌};
ghost use Rattle.environment.specs.System.{empty};
ghost use Rattle.shuttle.specs.Shuttles.{shuttle};

use environment::{Alphabet, Environment};
use modelsheet::model::Model;
use pair::Pair;
use sets::StateSet;
use shuttle::Shuttle;
use slip::Slip;
use std::{fmt, io};

// The jam station of examples/README.md, as a model sheet.
const JAM_STATION: [u8; 57] = [
    77, 6, 3, 3, 6, //
    1, 0, 0, 0, 0, 0, 0, 0, //
    8, 0, 0, 0, 0, 0, 0, 0, //
    0, 1, 1, 2, 1, 0, //
    1, 0, 0, 0, 2, 0, 0, 4, 5, 0, 0, 0, 0, 0, 0, 6, 0, 0, //
    1, 0, 2, 3, 5, 0, 4, 0, 3, 0, 2, 0,
];

// A gate that is shut (state 0) or open (state 1), always seen alike: to push it opens it. Both heads share record 1; record 2 is on no
// chain, so that it does not matter that its target and its next index name nothing.
const GATE: [u8; 29] = [
    77, 2, 1, 1, 2, //
    1, 0, 0, 0, 0, 0, 0, 0, //
    2, 0, 0, 0, 0, 0, 0, 0, //
    0, 0, //
    1, 1, //
    1, 0, 200, 99,
];

// A set of states, which prints as the states in it.
#[derive(Clone, Copy, Debug, PartialEq, Eq)]
struct Shown(StateSet);

impl fmt::Display for Shown {
    fn fmt<W: fmt::Write>(&self, f: &mut fmt::Formatter<W>) -> fmt::Result {
        f.write_str("{")?;
        let mut states = self.0.states();
        if let Some(first) = states.next() {
            write!(f, "{first}")?;
        }
        for state in states {
            write!(f, " {state}")?;
        }
        f.write_str("}")
    }
}

// A line for a state: what is seen there, and the outcome set of each action.
fn show_state(rt: &impl Print, environment: &impl Environment, state: u8) -> io::Result<()> {
    let sight = environment.observation(state);
    print!(rt; "{state} sees {sight}:")?;
    for action in 0..environment.actions() {
        let outcomes = Shown(environment.outcomes(state, action));
        print!(rt; " {outcomes}")?;
    }
    println!(rt; "")
}

// What an environment answers: its counts and sets, a line for each state, and what comes for a state and an action that it
// does not have.
fn show(rt: &impl Print, name: &str, environment: &impl Environment) -> io::Result<()> {
    let actions = environment.actions();
    let observations = environment.observations();
    let states = environment.states();
    println!(rt; "{name}: {actions} actions, {observations} observations, {states} states")?;
    let initial = Shown(environment.initial());
    let goal = Shown(environment.goal());
    println!(rt; "begins in {initial}, is to stop in {goal}")?;
    for state in 0..states {
        show_state(rt, environment, state)?;
    }
    let sight = environment.observation(states);
    let from = Shown(environment.outcomes(states, 0));
    let by = Shown(environment.outcomes(0, actions));
    println!(rt; "out of range: {sight} {from} {by}")
}

// A pair of shuttles of 5 and 4 places is the empty environment, because 10 times 8 states are more than 64.
fn wide_pair() -> Pair<Shuttle, Shuttle>
    ensures because { 64 < (shuttle 5).states * (shuttle 4).states }
    ensures empty { ⟦<Pair<Shuttle, Shuttle> as Environment>⟧.meaning result ≡ empty }
{
    Pair::new(Shuttle::new(5), Shuttle::new(4))
}

// The environments of model sheets, a refused one among them.
fn show_sheets(rt: &impl Print) -> io::Result<()> {
    let mut broken = GATE;
    broken[0] = 78;
    show(rt, "jam station", &Model::of(&JAM_STATION))?;
    show(rt, "gate", &Model::of(&GATE))?;
    show(rt, "refused sheet", &Model::of(&broken))
}

fn show_shuttles(rt: &impl Print) -> io::Result<()> {
    show(rt, "shuttle of 3", &Shuttle::new(3))?;
    show(rt, "shuttle of 33", &Shuttle::new(33))?;
    show(rt, "slip over a shuttle of 3", &Slip::new(Shuttle::new(3)))
}

// Layers over a shuttle and an environment beside it.
fn show_layers<E: Environment + Copy>(rt: &impl Print, beside: E) -> io::Result<()> {
    show(
        rt,
        "pair of a shuttle of 2 and a gate",
        &Pair::new(Shuttle::new(2), beside),
    )?;
    let slipping = Slip::new(Pair::new(Slip::new(Shuttle::new(2)), Slip::new(beside)));
    show(rt, "slip over a pair of slips over these", &slipping)
}

fn main(rt: HostRuntime) -> io::Result<()> {
    show_sheets(&rt)?;
    show_shuttles(&rt)?;
    show_layers(&rt, Model::of(&GATE))?;
    show(&rt, "pair of shuttles of 5 and 4", &wide_pair())
}
