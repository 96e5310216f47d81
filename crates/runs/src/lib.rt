// Runs: readings gathered for a rule, the weighted sum that they give with its band, and the verdict on two of them.
#![tactic(auto)]

mod band;
mod band_end;
mod call;
mod estimate;
mod held;
mod run;
mod sum;
mod verdict;

pub use band::Band;
pub use call::{Call, Reply};
pub use estimate::Estimate;
pub use run::Run;
pub use sum::total;
pub use verdict::Verdict;
