// Where an instruction stands in its text.
#[derive(Clone, Copy, Debug, Default, PartialEq, Eq)]
pub struct Place {
    pub number: u16,
    // Counted from the ground level.
    pub depth: u16,
    // The start of its section, and that section's rank.
    pub section: u16,
    pub rank: u16,
    // Whether it is the last of its section.
    pub last: bool,
}
