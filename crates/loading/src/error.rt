// Why an image is refused.
use control::LoadingCode;
use rules::TextError;
use thiserror::Error;

// A type of its own beside `TextError`: its first case says another thing, and callers of loading see no other error.
#[derive(Clone, Copy, Debug, PartialEq, Eq, Error)]
pub enum LoadError {
    // Empty, longer than 5,120 bytes, or no whole number of instructions.
    #[error("refused for its length")]
    BadLength,
    // The first rule that is broken, and the instruction that breaks it.
    #[error("refused with {0} at instruction {1}")]
    Breaks(LoadingCode, u16),
}

// By hand, since clauses say which error a `?` makes.
impl From<TextError> for LoadError {
    ghost use Rattle.std.specs.Prelude.{◌≡◌};
    ghost use Rattle.loading.specs.Verdicts.{from_text_error};

    ghost from_gives = { λ of_text error. error ≡ from_text_error of_text };

    fn from(error: TextError) -> LoadError {
        match error {
            TextError::Malformed => LoadError::BadLength,
            TextError::Breaks(code, number) => LoadError::Breaks(code, number),
        }
    }
}
