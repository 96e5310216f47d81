// Ends of bands are compared by their whole parts and, where these are equal, by what is left. No product leaves 64 bits.
ghost use Rattle.std.specs.Prelude.{◌≡◌, ◌<◌, pos, unsigned_abs};
ghost use Rattle.std.specs.Int.{int_div_euclid, int_rem_euclid};
ghost use Rattle.runs.specs.Ends.{fraction_of};
ghost use Rattle.runs.specs.Fractions.{below};

use super::BandEnd;

impl BandEnd {
    // The whole part, rounded towards minus infinity.
    fn floor(&self) -> i64
        ensures { result ≡ int_div_euclid self.now.numerator (pos self.now.denominator) }
    {
        self.numerator.div_euclid(self.denominator as i64)
    }

    // What is left above the whole part, over the denominator.
    fn rest(&self) -> u64
        ensures value { result ≡ unsigned_abs (int_rem_euclid self.now.numerator (pos self.now.denominator)) }
        ensures less { result < self.now.denominator }
    {
        self.numerator.rem_euclid(self.denominator as i64) as u64
    }

    // Whether this end is less than the other. No `PartialOrd`: it orders by value, and needs an equality by value beside it, by which 1/2 and 2/4 are one though their fields differ.
    pub(crate) fn is_below(&self, other: &BandEnd) -> bool
        ensures { result ≡ below (fraction_of self.now) (fraction_of other.now) }
    {
        let whole = self.floor();
        let other_whole = other.floor();
        if whole != other_whole {
            whole < other_whole
        } else {
            self.rest() * other.denominator < other.rest() * self.denominator
        }
    }
}
