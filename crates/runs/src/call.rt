// Calls of a run and the replies to them, as values.
use crate::estimate::Estimate;
use rules::Fault;

// A call with its arguments. Its source may be of any kind.
#[derive(Drop, PartialEq, Debug)]
pub enum Call<S> {
    Enter { station: usize, value: i64 },
    Strike { station: usize },
    Declare { tolerance: u64 },
    Load(S),
    Publish,
    Result,
}

// What a call is answered: the result if that was asked for, nothing for a change that is made, or the first check that failed.
pub type Reply = Result<Option<Estimate>, Fault>;
