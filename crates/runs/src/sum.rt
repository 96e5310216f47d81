// The sum over the stations of a rule.
ghost use Rattle.std.specs.Prelude.{◌≡◌, ◌^◌, ◌≤◌, ℤ, ◌*ℤ◌, if◌then◌else◌, Some, None, unsigned_abs};
ghost use Rattle.runs.specs.Totals.{lacks, value_of, total_of};

use crate::band::Band;
use rules::{Cause, Fault, Origin, Rule};
use sources::Source;

// What a station adds to the sum; nothing is added at a weight of 0, and there is no answer where another weight has no reading.
fn term(weight: i64, reading: Option<i64>) -> Option<i64>
    requires weight { unsigned_abs weight ≤ 2 ^ 40 }
    requires reading { (v : ℤ) → reading ≡ Some v → unsigned_abs v ≤ 2 ^ 20 }
    ensures { result ≡ (if lacks weight reading then None else Some (weight *ℤ value_of reading)) }
{
    if weight == 0 {
        return Some(0);
    }
    Some(weight * reading?)
}

// The weighted sum of the readings, with the radius of its band. It is refused at the first station of nonzero weight that has no reading.
pub fn total<R: Rule, S: Source>(rule: &R, source: &S) -> Result<Band, Fault>
    ensures { result ≡ total_of (R.Rule.meaning rule.now) (S.Source.meaning source.now) }
{
    let mut sum = 0;
    let mut size = 0;
    // a rule and a source are asked by station; tried `..=`, which leaves the loop in two places that each need the whole proof
    for station in 0..rule.span() + 1 {
        let weight = rule.weight(station);
        let Some(term) = term(weight, source.reading(station)) else {
            return Err(Origin::Run.fault(Cause::EmptyStation, station));
        };
        let magnitude = weight.abs();
        sum += term;
        size += magnitude;
    }
    Ok(Band {
        value: (sum, rule.denominator()),
        radius: source.tolerance() as i64 * size,
    })
}
