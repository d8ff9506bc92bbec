// An instruction as its image has it: its opcode's number and its four operand bytes.
ghost use Rattle.std.specs.Prelude.{◌≡◌, length, slice_index, drop};
ghost use Rattle.loading.specs.Instructions.{address, fits, alone};

use crate::flow::{control_of, takes_address};
use crate::image::WIDTH;
use control::{Control, LoadingCode};
use opcodes::{Opcode, admits, takes_operand};
use operands::{byte_at, decode_operand};
use records::Layout;

#[derive(Clone, Copy)]
pub struct Encoded<'a> {
    // The image's byte, which may be no opcode's number.
    pub opcode: u8,
    pub operand: &'a [u8],
}

impl<'a> Encoded<'a> {
    // The operand bytes are handed on as a part of the image, as this project's decoder of operands takes them.
    pub fn of(bytes: &'a [u8]) -> Encoded<'a>
        requires { length bytes.now ≡ 5 }
        ensures opcode { result.opcode ≡ slice_index bytes.now 0 }
        ensures operand { result.operand.now ≡ drop 1 bytes.now }
    {
        Encoded {
            opcode: bytes[0],
            operand: &bytes[1..WIDTH],
        }
    }

    // What it does to the flow of control, or the first rule that it breaks by itself.
    pub fn check(&self, layouts: &[Layout; 8], count: usize) -> Result<Control, LoadingCode>
        ensures { result ≡ alone layouts.now count self.now.opcode self.now.operand.now }
    {
        let opcode = Opcode::try_from(self.opcode).map_err(|_| LoadingCode::UnknownOpcode)?;
        if !self.fits(layouts) {
            return Err(LoadingCode::BadOperand);
        }
        let target = self.address();
        if takes_address(opcode) && usize::from(target) >= count {
            return Err(LoadingCode::BadAddress);
        }
        Ok(control_of(opcode, target))
    }

    // Whether its operand bytes are what its opcode takes.
    fn fits(&self, layouts: &[Layout; 8]) -> bool
        ensures { result ≡ fits layouts.now self.now.opcode self.now.operand.now }
    {
        admits(self.opcode, byte_at(self.operand, 0))
            && (!takes_operand(self.opcode) || decode_operand(self.operand, layouts).is_some())
    }

    pub fn address(&self) -> u16
        ensures { result ≡ address self.now.operand.now }
    {
        u16::from_le_bytes([byte_at(self.operand, 0), byte_at(self.operand, 1)])
    }
}
