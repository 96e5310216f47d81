// An integration rule, by what it tells.
ghost use Rattle.std.specs.Prelude.{◌≡◌};
ghost use Rattle.rules.specs.Meaning.{Meaning, Sound};

// Weights at the stations 0 to the span over one denominator. What the answers mean is `meaning`, and the law says what every rule promises of it.
// A question changes nothing, and the same question gets the same answer, since each answer is given by the meaning.
pub trait Rule {
    ghost meaning: { Self → Meaning };

    // The last station.
    fn span(&self) -> usize
        ensures { result ≡ (meaning self.now).span };

    // The weight at a station, 0 beyond the span.
    fn weight(&self, station: usize) -> i64
        ensures { result ≡ (meaning self.now).weighting.weight station };

    // What the weighted sum is divided by.
    fn denominator(&self) -> u64
        ensures { result ≡ (meaning self.now).weighting.denominator };

    // Every power up to this one is integrated exactly.
    fn degree(&self) -> usize
        ensures { result ≡ (meaning self.now).degree };

    // Whether the rule is told symmetric; then its weights read the same from both ends and its degree is odd.
    fn is_symmetric(&self) -> bool
        ensures { result ≡ (meaning self.now).symmetric };

    // A bound of the sum of the absolute weights.
    fn ceiling(&self) -> u64
        ensures { result ≡ (meaning self.now).weighting.ceiling };

    ghost sound: { (rule : Self) → Sound (meaning rule) };
}
