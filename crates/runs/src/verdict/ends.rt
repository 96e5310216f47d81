// The ends of the band of a result.
ghost use Rattle.std.specs.Prelude.{◌≡◌};
ghost use Rattle.runs.specs.Ends.{fraction_of};
ghost use Rattle.runs.specs.Verdicts.{Bounded, low_end, high_end, bands_apart};

use crate::band_end::BandEnd;
use crate::estimate::Estimate;

impl Estimate {
    // Where the band begins, and where it ends.
    fn ends(&self) -> (BandEnd, BandEnd)
        requires { Bounded self.now }
        ensures low { fraction_of result.0 ≡ low_end self.now }
        ensures high { fraction_of result.1 ≡ high_end self.now }
    {
        let (value, denominator) = self.value;
        let low = BandEnd {
            numerator: value - self.radius,
            denominator,
        };
        let high = BandEnd {
            numerator: value + self.radius,
            denominator,
        };
        (low, high)
    }

    // Whether one of two closed bands ends below where the other begins.
    pub(crate) fn is_apart_from(&self, other: &Estimate) -> bool
        requires first { Bounded self.now }
        requires second { Bounded other.now }
        ensures { result ≡ bands_apart self.now other.now }
    {
        let (low, high) = self.ends();
        let (other_low, other_high) = other.ends();
        high.is_below(&other_low) || other_high.is_below(&low)
    }
}
