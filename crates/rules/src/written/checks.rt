// The checks of a written rule: the sum of the absolute weights, the powers that are integrated exactly, and symmetry.
ghost use Rattle.std.specs.Prelude.{◌≡◌, suc, ◌≤◌, length, pos};
ghost use Rattle.algebra.specs.Sums.{◌^ℤ◌};
ghost use Rattle.rules.specs.Written.{absolute_sum, first_failing, integrates, moment_of, reads_same};

// A list of weights, for the stations 0 to one less than its length, that passed the checks of its sizes, so that its moments fit.
// The ceiling is the sum of the absolute weights.
#[derive(Drop)]
pub(super) struct Listed<'a> {
    pub(super) weights: &'a [i64],
    pub(super) denominator: u64,
    pub(super) degree: usize,
    pub(super) ceiling: u64,
    ghost stations: { 2 ≤ length weights.now },
    ghost few: { length weights.now ≤ 17 },
    ghost least: { 1 ≤ denominator },
    ghost limit: { denominator ≤ 1048576 },
    ghost low: { degree ≤ 9 },
    ghost total: { ceiling ≡ absolute_sum weights.now },
    ghost small: { ceiling ≤ 1048576 },
}

// The sum of the absolute weights; a list of 2^64 of the largest would still fit.
pub(super) fn absolute_sum(weights: &[i64]) -> u128
    ensures { result ≡ absolute_sum weights.now }
{
    weights
        .iter()
        .map(|weight| weight.unsigned_abs() as u128)
        .sum()
}

// The power of a station, which is at most 16, so that it stays within 2^40.
fn station_power(station: usize, exponent: usize) -> i64
    requires near { station ≤ 16 }
    requires low { exponent ≤ 10 }
    ensures { result ≡ pos station ^ℤ exponent }
{
    station.pow(exponent as u32) as i64
}

impl Listed<'_> {
    // The sum of the weights times their stations' powers; weights, stations and power are small enough that it stays below 2^57.
    // A loop is as plain here: a `sum` of signed terms needs the bound of each partial sum, which the loop's invariant gives.
    fn moment(&self, power: usize) -> i64
        requires { power ≤ 9 }
        ensures { result ≡ moment_of self.now.weights.now power }
    {
        let mut total = 0;
        for (station, weight) in self.weights.iter().enumerate() {
            total += *weight * station_power(station, power);
        }
        total
    }

    // Whether a power is integrated exactly over the stations 0 to the last.
    fn is_exact(&self, power: usize) -> bool
        requires { power ≤ 9 }
        ensures { result ≡ integrates self.now.weights.now self.now.denominator power }
    {
        let span = self.weights.len() - 1;
        let weighted = (power + 1) as i64 * self.moment(power);
        weighted == self.denominator as i64 * station_power(span, power + 1)
    }

    // The lowest power up to the degree that is not integrated exactly.
    pub(super) fn first_inexact(&self) -> Option<usize>
        ensures { result ≡ first_failing (suc self.now.degree) (integrates self.now.weights.now self.now.denominator) }
    {
        (0..self.degree + 1).find(|power| !self.is_exact(*power))
    }

    // Whether the weights read the same from both ends.
    pub(super) fn is_mirrored(&self) -> bool
        ensures { result ≡ reads_same self.now.weights.now }
    {
        self.weights
            .iter()
            .zip(self.weights.iter().rev())
            .all(|(left, right)| left == right)
    }
}
