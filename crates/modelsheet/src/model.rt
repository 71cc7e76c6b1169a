ghost use Rattle.std.specs.Prelude.{ℕ, ◌^◌, ◌<◌, ◌≤◌, slice_index};

mod questions;
mod read;
mod sheet;

pub use crate::model::read::says_one_system;

// The environment of a model sheet: what was read of the sheet, with the outcome sets made, so that a question costs no walk of a
// chain. The outcome set of a state and an action stands at state * actions + action; places past the last are not used. Arrays, since
// an environment takes no memory but its own, and may be copied; how much of them is used are the counts of the model. Sets stand as their
// masks: what holds a type with a model is not copied by the checker where it is passed on and used again.
#[derive(Clone, Copy)]
pub struct Model {
    states: u8,
    actions: u8,
    observations: u8,
    initial: u64,
    goal: u64,
    sights: [u8; 64],
    leads: [u64; 512],
    ghost few: { states ≤ 64 },
    ghost able: { actions ≤ 8 },
    ghost narrow: { observations ≤ 16 },
    ghost begins: { initial < 2 ^ states },
    ghost stops: { goal < 2 ^ states },
    ghost seen: { (s : ℕ) → s < states → slice_index sights s < observations },
    ghost led: { (k : ℕ) → slice_index leads k < 2 ^ states },
}
