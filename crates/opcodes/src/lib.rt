// Opcodes, and which operands each of them admits.
#![tactic(auto)]

mod naming;
mod opcode;
mod table;

pub use naming::UnknownOpcode;
pub use opcode::Opcode;
pub use table::{admits, is_known, takes_operand};
