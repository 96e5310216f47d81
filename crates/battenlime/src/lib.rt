// The library for callers in C and Rust: sessions, rules, runs and verdicts on numbers, bytes and buffers.
// Each call takes order and survey as two slices, since C has no `session::Input`.
#![tactic(auto)]

mod records;
mod replays;
mod sessions;
mod verdicts;
mod weights;

pub use records::{
    CallRecord, EstimateRecord, LineRecord, RefusalRecord, RuleRecord, VerdictRecord,
};
pub use replays::battenlime_replay;
pub use sessions::{battenlime_answer, battenlime_integrate, battenlime_report};
pub use verdicts::battenlime_settle;
pub use weights::battenlime_weights;
