// Why a text cannot be run.
use control::LoadingCode;
use thiserror::Error;

#[derive(Clone, Copy, Debug, PartialEq, Eq, Error)]
pub enum TextError {
    // No instructions or too many, or an address that is none of theirs.
    #[error("not 1 to 1,024 instructions with their addresses inside")]
    Malformed,
    // The first rule that it breaks, and the instruction.
    #[error("code {0} at instruction {1}")]
    Breaks(LoadingCode, u16),
}
