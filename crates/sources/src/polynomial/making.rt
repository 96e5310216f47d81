// Polynomials are made as zero, and given coefficients.
ghost use Rattle.std.specs.Prelude.{◌≡◌, ℕ, ◌≤◌, length, pos, slice_index_or};
ghost use Rattle.sources.specs.Polynomials.{coefficient_of, zero_coefficient, set_reply, set_coefficient};
ghost use Rattle.sources.specs.Searches.{value_of};

use super::{COEFFICIENTS, Polynomial};
use crate::checks::first_out_of_range;
use rules::{Cause, Fault, Origin};

// A list of coefficients with zeros after it. `rules` has the like for another size; one function for both would be public and would have to say what becomes of a longer list.
fn padded(coefficients: &[i64]) -> [i64; 12]
    requires { length coefficients.now ≤ 12 }
    ensures { (i : ℕ) → slice_index_or result i (pos 0) ≡ value_of coefficients.now i }
{
    let mut all = [0; 12];
    all[..coefficients.len()].copy_from_slice(coefficients);
    all
}

impl Polynomial {
    // The polynomial zero.
    pub fn new() -> Polynomial
        ensures { coefficient_of result ≡ zero_coefficient }
    {
        Polynomial {
            coefficients: [0; 12],
        }
    }

    // Replaces the polynomial; a refusal leaves it as it was. No coefficients are the polynomial zero.
    pub fn set(&mut self, coefficients: &[i64]) -> Result<(), Fault>
        ensures reply { result ≡ set_reply coefficients.now }
        ensures after { coefficient_of self.new ≡ set_coefficient coefficients.now (coefficient_of self.old) }
    {
        if coefficients.len() > COEFFICIENTS {
            return Err(Origin::Source.fault(Cause::CoefficientCount, 0));
        }
        if let Some(place) = first_out_of_range(coefficients) {
            return Err(Origin::Source.fault(Cause::ReadingRange, place));
        }
        self.coefficients = padded(coefficients);
        Ok(())
    }
}
