// Greatest common divisors.
ghost use Rattle.std.specs.Prelude.{◌≡◌, suc, ◌^◌, ◌≤◌};
ghost use Rattle.algebra.specs.Divisors.{gcd, common_divisor};

use rules::Rule;

// By Euclid's steps, in a loop of its own: neither the standard library nor num_traits has a greatest common divisor.
fn greatest_common(a: u64, b: u64) -> u64
    ensures { result ≡ gcd a b }
{
    let mut larger = a;
    let mut smaller = b;
    while smaller != 0 {
        let rest = larger % smaller;
        larger = smaller;
        smaller = rest;
    }
    larger
}

// The greatest common divisor of the denominator and all weights.
pub(crate) fn divisor<R: Rule>(below: &R) -> u64
    ensures value { result ≡ common_divisor (R.meaning below.now).weighting.denominator (suc (R.meaning below.now).span) (R.meaning below.now).weighting.weight }
    ensures least { 1 ≤ result }
    ensures most { result ≤ 2 ^ 31 }
{
    (0..below.span() + 1).fold(below.denominator(), |found, station| {
        greatest_common(found, below.weight(station).unsigned_abs())
    })
}
