// Why the program ends with status 1. A message may name a path of any length, and `anyhow::Error` keeps only 120 bytes of one.
use std::alloc::{AllocError, Global};
use std::{fmt, io};

#[derive(Drop)]
pub enum Failure {
    Told(String),
    Other(anyhow::Error),
}

impl Failure {
    // The message, or that there is no memory for it.
    pub fn told<T: fmt::Display + Drop>(heap: Global, message: T) -> Result<Failure, Failure> {
        Ok(Failure::Told(message.to_string(heap)?))
    }
}

// As `main` prints it: by hand, since a derived Debug prints the case's name too.
impl fmt::Debug for Failure {
    fn fmt<W: fmt::Write>(&self, f: &mut fmt::Formatter<W>) -> fmt::Result {
        match self {
            Failure::Told(message) => write!(f, "{message}"),
            Failure::Other(error) => write!(f, "{error:?}"),
        }
    }
}

// By hand, since a derive makes one conversion of a case, and three kinds of errors become `Other`.
impl From<anyhow::Error> for Failure {
    fn from(error: anyhow::Error) -> Failure {
        Failure::Other(error)
    }
}

impl From<AllocError> for Failure {
    fn from(error: AllocError) -> Failure {
        Failure::Other(anyhow::Error::from(error))
    }
}

impl From<io::Error> for Failure {
    fn from(error: io::Error) -> Failure {
        Failure::Other(anyhow::Error::from(error))
    }
}
