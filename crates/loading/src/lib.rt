// Loading: the verdict on an image, for every byte string and every eight layouts, and the program that it becomes.
#![tactic(auto)]

mod encoded;
mod error;
mod flow;
mod image;
mod instruction;
mod program;
mod verdict;

pub use error::LoadError;
pub use image::WIDTH;
pub use instruction::Instruction;
pub use program::Program;
pub use verdict::{Verdict, judge_image};
