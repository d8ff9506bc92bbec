// What one instruction does to the flow of control. Addresses are instruction numbers.
#[derive(Clone, Copy, Debug, Default, PartialEq, Eq)]
pub enum Control {
    // Goes on with the next instruction.
    #[default]
    Plain,
    // Keeps a bit on the bit stack, and goes on.
    Push,
    // Takes a bit from the bit stack, and goes on.
    Pop,
    // Goes on at the address if a condition holds, else with the next instruction.
    JumpIf(u16),
    Jump(u16),
    Call(u16),
    Return,
    End,
}

// The most instructions that a program has.
pub const MOST_INSTRUCTIONS: usize = 1024;
