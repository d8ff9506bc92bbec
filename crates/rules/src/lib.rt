// Judges the control text of a program by the loading rules: the first rule that it breaks, or its step bound.
#![tactic(auto)]

mod check;
mod error;
mod judge;
mod places;
mod scan;
mod step;
mod text;
mod weigh;

pub use error::TextError;
pub use judge::{Judgment, judge_text};
