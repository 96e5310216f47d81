// The verdict on two runs.
mod ends;
mod judging;

// Whether the bands of two results tell the two integrals apart.
#[derive(Clone, Copy, PartialEq, Eq, Debug)]
pub enum Verdict {
    // no number lies in both bands
    Apart,
    // some number lies in both
    Meet,
}
