// Integration rules with whole-number weights: what a rule is and promises, the rules that are built in, the rule that is written as a list of weights, and the table that a layered rule is.
#![tactic(auto)]

mod built_in;
mod fault;
mod rule;
mod table;
mod written;

pub use built_in::BuiltIn;
pub use fault::{Cause, Fault, Origin};
pub use rule::Rule;
pub use table::Table;
pub use written::Written;
