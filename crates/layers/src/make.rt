// The making of each layer, with its place in a pile where it can be refused.
ghost use Rattle.std.specs.Prelude.{◌≡◌, suc, ◌+◌, ◌≤◌, if◌then◌else◌, Err, IfErr};
ghost use Rattle.std.specs.Result.{result_map_both};
ghost use Rattle.algebra.specs.Divisors.{Greatest};
ghost use Rattle.rules.specs.Tables.{told as told_by};
ghost use Rattle.layers.specs.Layers.{divisor_of, factor as factor_of, making, mirrored, reduced};
ghost use Rattle.layers.specs.Sizing.{divided_sizes, sizing};

use crate::divisor::divisor;
use crate::fill::{
    mirror_weights, panel_weights, reduce_weights, refine_weights, same_weights, stretch_weights,
};
use crate::layer::Layer;
use crate::sizes::{SPAN_LIMIT, Sizes};
use rules::{Cause, Fault, Origin, Rule, Table};

// The refinement factors for the degrees 0 to 10.
const FACTORS: [u64; 11] = [2, 4, 8, 16, 32, 64, 128, 256, 512, 1024, 2048];

// The refinement factor of a degree. Above 10 it is 0, as its definition is total; a refinement there is refused in any case, for its span or its degree.
fn factor(degree: usize) -> u64
    ensures value { result ≡ factor_of degree }
    ensures bound { result ≤ 2048 }
{
    FACTORS.get(degree).copied().unwrap_or(0)
}

// The degree of a refinement: two more over a symmetric rule, one more over any other.
fn raised(degree: usize, symmetric: bool) -> usize
    requires { degree ≤ 11 }
    ensures { result ≡ (if symmetric then degree + 2 else degree + 1) }
{
    if symmetric { degree + 2 } else { degree + 1 }
}

// The sizes of `count` copies, if there are any and they are admitted.
fn multiplied<R: Rule>(below: &R, count: usize, place: usize) -> Result<Sizes, Fault>
    ensures { result ≡ sizing (Layer.Panels count) place (R.meaning below.now) }
{
    if count == 0 {
        return Err(Origin::Layer.fault(Cause::CountZero, place));
    }
    // a span is at least 1
    if count > SPAN_LIMIT {
        return Err(Origin::Layer.fault(Cause::SpanLimit, place));
    }
    let sizes = Sizes {
        span: count * below.span(),
        ceiling: count as u64 * below.ceiling(),
        ..Sizes::of(below)
    };
    sizes.admit(place)?;
    Ok(sizes)
}

// The sizes of the refinement, if they are admitted.
fn doubled<R: Rule>(below: &R, place: usize) -> Result<Sizes, Fault>
    ensures { result ≡ sizing Layer.Refinement place (R.meaning below.now) }
{
    let degree = below.degree();
    let factor = factor(degree);
    let sizes = Sizes {
        span: 2 * below.span(),
        degree: raised(degree, below.is_symmetric()),
        ceiling: (2 * factor + 2) * below.ceiling(),
        denominator: below.denominator() * factor.saturating_sub(1),
    };
    sizes.admit(place)?;
    Ok(sizes)
}

// Refuses as the making of the layer does, by the sizes alone, so that no table is copied for a layer that is refused. Not inlined, since the compiler then merges it with the checks of the making: a pile of 257 layers took up to two thirds longer.
#[inline(never)]
pub(crate) fn check<R: Rule>(layer: Layer, below: &R, place: usize) -> Result<(), Fault>
    ensures value { result ≡ result_map_both (λ _. tt) (λ e. e) (sizing layer place (R.meaning below.now)) }
    ensures refusal { IfErr result (λ e. making layer place (R.meaning below.now) ≡ Err e) }
{
    match layer {
        Layer::Panels(count) | Layer::Stretch(count) => {
            multiplied(below, count, place)?;
        }
        Layer::Refinement => {
            doubled(below, place)?;
        }
        Layer::Mirror | Layer::LowestTerms => {}
    }
    Ok(())
}

// The sizes of the rule in lowest terms.
fn divided<R: Rule>(below: &R, divisor: u64) -> Sizes
    requires { 1 ≤ divisor }
    ensures { result ≡ divided_sizes divisor (R.meaning below.now) }
{
    Sizes {
        ceiling: below.ceiling() / divisor,
        denominator: below.denominator() / divisor,
        ..Sizes::of(below)
    }
}

pub(crate) fn lay_panels<R: Rule + Drop>(
    below: R,
    count: usize,
    place: usize,
) -> Result<Table, Fault>
    ensures { result_map_both told_by (λ e. e) result ≡ making (Layer.Panels count) place (R.meaning below) }
{
    let sizes = multiplied(&below, count, place)?;
    Ok(sizes.table(below.is_symmetric(), panel_weights(&below, count)))
}

// No plainer as one with lay_panels: handed the filling as a closure, it would have to state what that fills, at more length than these two lines.
pub(crate) fn lay_stretch<R: Rule + Drop>(
    below: R,
    count: usize,
    place: usize,
) -> Result<Table, Fault>
    ensures { result_map_both told_by (λ e. e) result ≡ making (Layer.Stretch count) place (R.meaning below) }
{
    let sizes = multiplied(&below, count, place)?;
    Ok(sizes.table(below.is_symmetric(), stretch_weights(&below, count)))
}

pub(crate) fn lay_refinement<R: Rule + Drop>(below: R, place: usize) -> Result<Table, Fault>
    ensures { result_map_both told_by (λ e. e) result ≡ making Layer.Refinement place (R.meaning below) }
{
    let sizes = doubled(&below, place)?;
    let weights = refine_weights(&below, factor(below.degree()));
    Ok(sizes.table(below.is_symmetric(), weights))
}

// A rule read from the other end; never refused.
pub fn mirror<R: Rule + Drop>(below: R) -> Table
    ensures { told_by result ≡ mirrored (R.meaning below) }
{
    Sizes::of(&below).table(below.is_symmetric(), mirror_weights(&below))
}

// A rule with weights and denominator in lowest terms; never refused. What they are divided by divides them all, and every common divisor divides it.
pub fn lowest_terms<R: Rule + Drop>(below: R) -> Table
    ensures value { told_by result ≡ reduced (R.meaning below) }
    ensures greatest { Greatest (R.meaning below).weighting.denominator (suc (R.meaning below).span) (R.meaning below).weighting.weight (divisor_of (R.meaning below)) }
{
    let divisor = divisor(&below);
    let weights = reduce_weights(&below, divisor);
    divided(&below, divisor).table(below.is_symmetric(), weights)
}

// A rule that stays where it is, written out as a table.
pub(crate) fn written_out<R: Rule>(rule: &R) -> Table
    ensures { told_by result ≡ R.meaning rule.now }
{
    Sizes::of(rule).table(rule.is_symmetric(), same_weights(rule))
}
