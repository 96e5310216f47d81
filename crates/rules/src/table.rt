// A rule as a table: what every layered rule is, however many layers it has.
mod answers;

ghost use Rattle.std.specs.Prelude.{pos, slice_index_or};
ghost use Rattle.rules.specs.Meaning.{Sound, telling};

#[derive(Drop)]
pub struct Table {
    pub span: usize,
    pub denominator: u64,
    pub degree: usize,
    pub symmetric: bool,
    pub ceiling: u64,
    // By a rule of the project in fixed memory; a vector of a fixed capacity would hold the same array, and its length would be one more promise to keep: the span and one.
    pub weights: [i64; 1025],
    // What every rule promises, so that no table exists that breaks a promise: a span, a denominator, a ceiling and a degree in range, no weight
    // beyond the span, absolute weights that sum to at most the ceiling, exactness up to the degree, and mirrored weights and an odd degree where it is symmetric.
    ghost sound: { Sound (telling span denominator degree symmetric ceiling (λ s. slice_index_or weights s (pos 0))) },
}
