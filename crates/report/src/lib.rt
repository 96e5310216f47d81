// The one-line report of a session, written into a buffer of the caller's.
#![tactic(auto)]

mod delivery;
mod reports;
mod written;

pub use delivery::write_line;
pub use reports::{write_refusal, write_result};
pub use written::Written;
