// Two differing integrals: two cases in one input, the verdict on them, and its line of text.
#![tactic(auto)]

mod cases;
mod lines;
mod splitting;

pub use cases::verdict;
pub use lines::write_verdict;
pub use splitting::{Pair, split};
