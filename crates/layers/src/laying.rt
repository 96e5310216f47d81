// One layer on a rule, as a call or at its place in a pile.
ghost use Rattle.std.specs.Prelude.{◌≡◌};
ghost use Rattle.std.specs.Result.{result_map_both};
ghost use Rattle.rules.specs.Tables.{told as told_by};
ghost use Rattle.layers.specs.Layers.{making};

use crate::layer::Layer;
use crate::make::{lay_panels, lay_refinement, lay_stretch, lowest_terms, mirror};
use rules::{Fault, Rule, Table};

// So many copies of a rule side by side. A refusal uses the rule up, as for every layer.
pub fn panels<R: Rule + Drop>(below: R, count: usize) -> Result<Table, Fault>
    ensures { result_map_both told_by (λ e. e) result ≡ making (Layer.Panels count) 0 (R.meaning below) }
{
    lay_panels(below, count, 0)
}

// A rule over a span so many times as long.
pub fn stretch<R: Rule + Drop>(below: R, count: usize) -> Result<Table, Fault>
    ensures { result_map_both told_by (λ e. e) result ≡ making (Layer.Stretch count) 0 (R.meaning below) }
{
    lay_stretch(below, count, 0)
}

// Richardson's refinement of a rule.
pub fn refine<R: Rule + Drop>(below: R) -> Result<Table, Fault>
    ensures { result_map_both told_by (λ e. e) result ≡ making Layer.Refinement 0 (R.meaning below) }
{
    lay_refinement(below, 0)
}

// One layer at its place in a pile.
pub(crate) fn lay(layer: Layer, below: Table, place: usize) -> Result<Table, Fault>
    ensures { result_map_both told_by (λ e. e) result ≡ making layer place (told_by below) }
{
    // a layer is data that a caller lists and passes on, which a closure is not
    match layer {
        Layer::Panels(count) => lay_panels(below, count, place),
        Layer::Stretch(count) => lay_stretch(below, count, place),
        Layer::Mirror => Ok(mirror(below)),
        Layer::Refinement => lay_refinement(below, place),
        Layer::LowestTerms => Ok(lowest_terms(below)),
    }
}
