// What a run tells of an integral.

// Not a `Band` and a degree: callers and contracts name value and radius as its own fields, which is no plainer through one more.
// The integral as a fraction, numerator first, how far the truth may be from it over the same denominator, and the degree of the rule.
#[derive(Clone, Copy, PartialEq, Eq, Debug)]
pub struct Estimate {
    pub value: (i64, u64),
    pub radius: i64,
    pub degree: usize,
}
