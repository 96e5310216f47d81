// The ends of bands.
mod comparing;

ghost use Rattle.std.specs.Prelude.{◌^◌, ◌≤◌};

// An end of a band, as a fraction.
#[derive(Drop)]
pub struct BandEnd {
    pub(crate) numerator: i64,
    pub(crate) denominator: u64,
    ghost denominator_least: { 1 ≤ denominator },
    ghost denominator_most: { denominator ≤ 2 ^ 31 },
}
