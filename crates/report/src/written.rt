// What a call that writes a line tells of it.
use rules::Fault;

// No `Result`: the line of a refusal that fits has both a length and a fault, and a caller writes out the first `len` bytes in each case.
#[derive(Clone, Copy, PartialEq, Eq, Debug)]
pub struct Written {
    // how many bytes the line took, its newline included, or 0 where it does not fit
    pub len: usize,
    // the refusal that the line reports, or else the one of a buffer that is too short
    pub fault: Option<Fault>,
}
