// A session: an order and a survey as bytes in, one line of text out.
#![tactic(auto)]

mod input;
mod order;
mod session;

pub use input::Input;
pub use order::Order;
pub use session::{answer, estimate, report};
