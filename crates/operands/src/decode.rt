// The operand that four bytes stand for, if they fit.
ghost use Rattle.std.specs.Prelude.{◌≡◌, slice_index};
ghost use Rattle.operands.specs.Operands.{operand, operand_of};

use crate::cell::cell_of;
use crate::operand::Operand;
use crate::part::{byte_of, field_of, whole_of};
use constants::OperandBytes;
use records::Layout;

// The bytes are a part of an image. Inlined, since how many they are is known where they are cut out, and no test of it is left there.
#[inline(always)]
pub fn decode_operand(bytes: &[u8], layouts: &[Layout; 8]) -> Option<Operand>
    ensures { result ≡ operand layouts.now bytes.now }
{
    let bytes = OperandBytes {
        p1: byte_at(bytes, 0),
        p2: byte_at(bytes, 1),
        p3: byte_at(bytes, 2),
        p4: byte_at(bytes, 3),
    };
    decode(bytes, layouts)
}

// A byte that is not there is read as 0.
pub fn byte_at(bytes: &[u8], i: usize) -> u8
    ensures { result ≡ slice_index bytes.now i }
{
    bytes.get(i).copied().unwrap_or(0)
}

// Inlined, since a call would hand the bytes over packed together, through memory, to be taken apart again.
#[inline(always)]
fn decode(bytes: OperandBytes, layouts: &[Layout; 8]) -> Option<Operand>
    ensures { result ≡ operand_of layouts.now bytes.p1 bytes.p2 bytes.p3 bytes.p4 }
{
    Some(match bytes.p1 {
        0x00..=0x3f => Operand::Cell(cell_of(bytes)?),
        0x40..=0x4f => Operand::Field(field_of(bytes, layouts)?),
        0x50..=0x5f => Operand::Byte(byte_of(bytes, layouts)?),
        0xc0..=0xcf => Operand::Constant(bytes.constant()?),
        0xd0..=0xdf => Operand::Whole(whole_of(bytes, layouts)?),
        _ => return None,
    })
}
