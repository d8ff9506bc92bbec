// Operands of instructions, decoded from their four bytes.
#![tactic(auto)]

mod base_record;
mod cell;
mod decode;
mod operand;
mod part;
mod text;

pub use base_record::BaseRecord;
pub use cell::Cell;
pub use decode::{byte_at, decode_operand};
pub use operand::{Field, Format, MaskedByte, Operand};
