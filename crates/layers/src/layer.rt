// What can be laid on a rule.
#[derive(Clone, Copy, PartialEq, Eq, Debug, Default)]
pub enum Layer {
    // so many copies side by side
    Panels(usize),
    // so many times as long
    Stretch(usize),
    // read from the other end
    Mirror,
    // Richardson: two half-length panels against one, so that the leading error cancels
    Refinement,
    // weights and denominator divided by their greatest common divisor; a vector of fixed capacity asks for a default, which its unused places hold
    #[default]
    LowestTerms,
}
