// The worked examples of the documentation, as the definitions and the public calls answer them.
#![tactic(auto)]

mod verdicts;

pub use verdicts::example_verdicts;
