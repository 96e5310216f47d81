// The sizes of a rule to be made, and the checks that they have to pass.
ghost use Rattle.std.specs.Prelude.{◌≡◌, pos, slice_index_or};
ghost use Rattle.rules.specs.Meaning.{Sound, telling};
ghost use Rattle.rules.specs.Tables.{told as told_by};
ghost use Rattle.layers.specs.Layers.{admission};
ghost use Rattle.layers.specs.Sizing.{sizes_of};

use rules::{Cause, Fault, Origin, Rule, Table};

pub(crate) const SPAN_LIMIT: usize = 1024;

const DEGREE_LIMIT: usize = 11;

const CEILING_LIMIT: u64 = 1 << 40;

const DENOMINATOR_LIMIT: u64 = 1 << 31;

#[derive(Clone, Copy)]
pub(crate) struct Sizes {
    pub(crate) span: usize,
    pub(crate) degree: usize,
    pub(crate) ceiling: u64,
    pub(crate) denominator: u64,
}

impl Sizes {
    // The sizes of a rule.
    pub(crate) fn of<R: Rule>(rule: &R) -> Sizes
        ensures { result ≡ sizes_of (R.meaning rule.now) }
    {
        Sizes {
            span: rule.span(),
            degree: rule.degree(),
            ceiling: rule.ceiling(),
            denominator: rule.denominator(),
        }
    }

    // Refused at `place` by the first check that fails.
    pub(crate) fn admit(self, place: usize) -> Result<(), Fault>
        ensures { result ≡ admission self.span self.degree self.ceiling self.denominator place }
    {
        if self.span > SPAN_LIMIT {
            return Err(Origin::Layer.fault(Cause::SpanLimit, place));
        }
        if self.degree > DEGREE_LIMIT {
            return Err(Origin::Layer.fault(Cause::DegreeLimit, place));
        }
        if self.ceiling > CEILING_LIMIT || self.denominator > DENOMINATOR_LIMIT {
            return Err(Origin::Layer.fault(Cause::SizeLimit, place));
        }
        Ok(())
    }

    // The table of these sizes and weights, which the caller shows to keep the promises of a rule.
    pub(crate) fn table(self, symmetric: bool, weights: [i64; 1025]) -> Table
        requires { Sound (telling self.span self.denominator self.degree symmetric self.ceiling (λ s. slice_index_or weights s (pos 0))) }
        ensures { told_by result ≡ telling self.span self.denominator self.degree symmetric self.ceiling (λ s. slice_index_or weights s (pos 0)) }
    {
        Table {
            span: self.span,
            denominator: self.denominator,
            degree: self.degree,
            symmetric,
            ceiling: self.ceiling,
            weights,
        }
    }
}
