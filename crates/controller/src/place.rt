// Where an entry stands: its memory and its observation.
#[derive(Clone, Copy, Debug, Default, PartialEq, Eq)]
pub struct Place {
    pub memory: u8,
    pub observation: u8,
}
