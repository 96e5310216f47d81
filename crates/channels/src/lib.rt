// Records of readings of several kinds, and channels that tell one component of each record as a source.
#![tactic(auto)]

mod channel;
mod force;
mod kind;
mod number;

pub use channel::Channel;
pub use force::{Force, RawForce};
pub use kind::{ReadingKind, reading_or_zero};
pub use number::Number;
