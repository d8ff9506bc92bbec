// One instruction as a line of a listing, as the recorder's maker writes it.
use loading::Instruction;
use operands::Operand;
use std::fmt;

#[derive(Drop)]
pub struct Line<'a> {
    pub number: usize,
    pub bytes: &'a [u8],
    pub instruction: Instruction,
}

impl fmt::Display for Line<'_> {
    fn fmt<W: fmt::Write>(&self, f: &mut fmt::Formatter<W>) -> fmt::Result {
        write!(f, "{:>3} ", self.number)?;
        for byte in self.bytes {
            write!(f, " {byte:02x}")?;
        }
        write!(f, "  {}", self.instruction.opcode)?;
        match self.instruction.operand {
            Operand::Nothing => Ok(()),
            operand => write!(f, " {operand}"),
        }
    }
}
