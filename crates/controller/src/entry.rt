// What a controller does at one memory and one observation: nothing yet, stop, or an action and then a memory to go to. These are the three
// cases that every definition speaks of, so that blank is one of them and no absence.
#[derive(Clone, Copy, Debug, PartialEq, Eq)]
pub enum Entry {
    Blank,
    Stop,
    Move { action: u8, next: u8 },
}
