// An instruction, decoded once when its image is loaded.
ghost use Rattle.std.specs.Prelude.{◌≡◌, true};
ghost use Rattle.opcodes.specs.Families.{known, takes_address};
ghost use Rattle.opcodes.specs.Numbers.{number};
ghost use Rattle.loading.specs.Decoded.{operand_for};

use crate::encoded::Encoded;
use crate::flow::takes_address;
use opcodes::{Opcode, takes_operand};
use operands::{Operand, decode_operand};
use records::Layout;

// By default a NOP, which does nothing.
#[derive(Clone, Copy, Debug, Default, PartialEq)]
pub struct Instruction {
    pub opcode: Opcode,
    pub operand: Operand,
}

impl Encoded<'_> {
    // An unknown opcode, which no accepted image has, decodes to a NOP.
    #[tactic(auto, using(crate::proofs::Filling::named_or, crate::proofs::Filling::addressed_or))]
    pub fn decode(&self, layouts: &[Layout; 8]) -> Instruction
        ensures opcode { known self.now.opcode ≡ true → number result.opcode ≡ self.now.opcode }
        ensures operand { result.operand ≡ operand_for layouts.now self.now.opcode self.now.operand.now }
    {
        let opcode = Opcode::try_from(self.opcode).unwrap_or(Opcode::Nop);
        let operand = self.operand_of(opcode, layouts);
        Instruction { opcode, operand }
    }

    fn operand_of(&self, opcode: Opcode, layouts: &[Layout; 8]) -> Operand
        requires { takes_address (number opcode) ≡ takes_address self.now.opcode }
        ensures { result ≡ operand_for layouts.now self.now.opcode self.now.operand.now }
    {
        if takes_operand(self.opcode) {
            decode_operand(self.operand, layouts).unwrap_or(Operand::Nothing)
        } else if takes_address(opcode) {
            Operand::Address(self.address())
        } else {
            Operand::Nothing
        }
    }
}
