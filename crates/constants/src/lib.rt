// Constants of a program: the binary64 number that four operand bytes stand for.
#![tactic(auto)]

mod exponent;
mod operand_bytes;
mod powers;
#[cfg(test)]
mod tests;

pub use operand_bytes::OperandBytes;
