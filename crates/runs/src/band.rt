// The band of a weighted sum.

// The sum as a fraction, numerator first, and how far the truth may be from it on either side, over the same denominator.
#[derive(Clone, Copy, PartialEq, Eq, Debug)]
pub struct Band {
    pub value: (i64, u64),
    pub radius: i64,
}
