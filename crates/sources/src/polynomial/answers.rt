// A polynomial answers by its exact values.
ghost use Rattle.std.specs.Prelude.{◌≡◌, ◌≤◌, ◌&&◌, pos, ◌+ℤ◌, ◌*ℤ◌, nat_lt, unsigned_abs};
ghost use Rattle.sources.specs.Polynomials.{coefficient_of, polynomial_at, read_off};
ghost use Rattle.std.proofs.Common.{rules, arith};

use super::Polynomial;
use crate::checks::is_in_range;
use crate::source::{EXACT, LAST_STATION, Source};

// At a station above 1 no value in range comes after a step beyond this: a step at least doubles the size and adds at most 1,048,576 to it.
const STEP_LIMIT: u64 = 2_097_152;

// One step of Horner's scheme.
fn step(value: i64, station: usize, coefficient: i64) -> i64
    requires value_small { unsigned_abs value ≤ 12582912 }
    requires station_small { station ≤ 1024 }
    requires coefficient_small { unsigned_abs coefficient ≤ 1048576 }
    ensures { result ≡ (value *ℤ pos station) +ℤ coefficient }
{
    value * station as i64 + coefficient
}

// Whether no step after this one comes back into the range of a reading.
fn has_left(value: i64, station: usize) -> bool
    ensures { result ≡ nat_lt 1 station && nat_lt 2097152 (unsigned_abs value) }
{
    station > 1 && value.unsigned_abs() > STEP_LIMIT
}

impl Polynomial {
    // The value at a station, by Horner's scheme, where it is a reading.
    fn value(&self, station: usize) -> Option<i64>
        requires { station ≤ 1024 }
        ensures { result ≡ polynomial_at (coefficient_of self.now) station }
    {
        let mut value = 0;
        for coefficient in self.coefficients.iter().rev() {
            value = step(value, station, *coefficient);
            if has_left(value, station) {
                return None;
            }
        }
        is_in_range(value).then_some(value)
    }
}

impl Source for Polynomial {
    ghost meaning = { read_off };

    ghost sound = { first_of (Prim.search rules, Prim.grind (arith, Self.row.coded.inj)) };

    fn reading(&self, station: usize) -> Option<i64> {
        if station <= LAST_STATION {
            self.value(station)
        } else {
            None
        }
    }

    fn tolerance(&self) -> u64 {
        EXACT
    }
}
