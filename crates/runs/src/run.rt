// A run: a rule, the readings gathered for it, and whether they are published.
mod changes;
mod making;
mod performing;

use crate::held::Held;

// Whether a run still takes calls that change it.
#[derive(Clone, Copy, PartialEq, Eq, Debug)]
pub enum State {
    Gathering,
    Published,
}

// What the fields mean is the ledger of the run. Tried a model with the ledger as its value: a value needs a code, and the readings are a function, which has none.
#[derive(Drop)]
pub struct Run<R> {
    rule: R,
    held: Held,
    state: State,
}
