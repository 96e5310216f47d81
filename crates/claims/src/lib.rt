// The law over whole runs: a case replayed, and two cases settled.
#![tactic(auto)]

mod figures;
mod one_case;
mod two_cases;

pub use figures::laws_have_cases;
pub use one_case::{Case, replay};
pub use two_cases::{Settlement, settle};
