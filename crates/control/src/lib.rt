// The flow of control of a program: what each instruction does to it, the rules that a program must keep, and its step bound.
#![tactic(auto)]

mod code;
mod control;
mod place;

pub use code::LoadingCode;
pub use control::{Control, MOST_INSTRUCTIONS};
pub use place::Place;
