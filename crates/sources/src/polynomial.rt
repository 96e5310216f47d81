// A polynomial with whole coefficients.
mod answers;
mod making;

ghost use Rattle.std.specs.Prelude.{ℕ, ◌≤◌, pos, slice_index_or, unsigned_abs};

// The most coefficients there are.
const COEFFICIENTS: usize = 12;

// The coefficients, lowest power first. Their bound keeps the steps of Horner's scheme small.
#[derive(Drop)]
pub struct Polynomial {
    coefficients: [i64; 12],
    ghost in_range: { (i : ℕ) → unsigned_abs (slice_index_or coefficients i (pos 0)) ≤ 1048576 },
}
