// The rows of weights that the layers make, each filled in one pass over the stations.
ghost use Rattle.std.specs.Prelude.{◌≡◌, ℕ, ◌+◌, ◌*◌, ◌^◌, ◌<◌, ◌≤◌, ℤ, pos, ◌+ℤ◌, ◌-ℤ◌, ◌*ℤ◌, slice_index_or, unsigned_abs};
ghost use Rattle.algebra.specs.Weights.{shifted, panel_weight, stretch_weight, mirror_weight, refine_weight, reduce_weight};
ghost use Rattle.layers.specs.Filled.{Holds};

use rules::Rule;

// The row that `weight_at` tells at the stations 0 to `last`, 0 beyond.
fn filled<F: Fn(usize) -> i64>(last: usize, weight_at: F) -> [i64; 1025]
    requires within { last ≤ 1024 }
    requires asked { (s : ℕ) → s ≤ last → F.pre weight_at s }
    ensures told { (s : ℕ) → s ≤ last → F.post weight_at s (slice_index_or result s (pos 0)) }
    ensures beyond { (s : ℕ) → last < s → slice_index_or result s (pos 0) ≡ pos 0 }
{
    let mut weights = [0; 1025];
    for (station, weight) in weights[..last + 1].iter_mut().enumerate() {
        *weight = weight_at(station);
    }
    weights
}

// Adds the weights below, moved up by `first` stations.
fn add_panel<R: Rule>(weights: &mut [i64; 1025], below: &R, first: usize)
    requires within { first + (R.meaning below.now).span ≤ 1024 }
    requires small { (s : ℕ) → unsigned_abs (slice_index_or weights.old s (pos 0)) ≤ 2 ^ 60 }
    ensures { Holds weights.new (λ s. slice_index_or weights.old s (pos 0) +ℤ shifted (R.meaning below.now).weighting.weight first s) }
{
    let end = first + below.span() + 1;
    for (station, weight) in weights[first..end].iter_mut().enumerate() {
        *weight += below.weight(station);
    }
}

// The weights of `count` panels.
pub(crate) fn panel_weights<R: Rule>(below: &R, count: usize) -> [i64; 1025]
    requires { count * (R.meaning below.now).span ≤ 1024 }
    ensures { Holds result (panel_weight count (R.meaning below.now).span (R.meaning below.now).weighting.weight) }
{
    let span = below.span();
    let mut weights = [0; 1025];
    // no slice to iterate over: a panel is a number, of which each call adds the weights at its own stations
    for panel in 0..count {
        add_panel(&mut weights, below, panel * span);
    }
    weights
}

// The weights stretched by `count`. The loop counts the stations below, since a rule is no slice to iterate over; `step_by` over the array and a division at each station above were tried and slower.
pub(crate) fn stretch_weights<R: Rule>(below: &R, count: usize) -> [i64; 1025]
    requires some { 1 ≤ count }
    requires within { count * (R.meaning below.now).span ≤ 1024 }
    ensures { Holds result (stretch_weight count (R.meaning below.now).weighting.weight) }
{
    let mut weights = [0; 1025];
    for station in 0..below.span() + 1 {
        weights[count * station] = count as i64 * below.weight(station);
    }
    weights
}

// The weights from the other end.
pub(crate) fn mirror_weights<R: Rule>(below: &R) -> [i64; 1025]
    ensures { Holds result (mirror_weight (R.meaning below.now).span (R.meaning below.now).weighting.weight) }
{
    let span = below.span();
    filled(span, |station| below.weight(span - station))
}

// The weights as they are.
pub(crate) fn same_weights<R: Rule>(below: &R) -> [i64; 1025]
    ensures { Holds result (R.meaning below.now).weighting.weight }
{
    filled(below.span(), |station| below.weight(station))
}

// The weight `first` stations before this one, 0 below that.
fn shifted_weight<R: Rule>(below: &R, first: usize, station: usize) -> i64
    ensures { result ≡ shifted (R.meaning below.now).weighting.weight first station }
{
    if station >= first {
        below.weight(station - first)
    } else {
        0
    }
}

// Twice the weight at half the station, 0 at odd stations. Asked at each station above, where stretch_weights goes through those below and gives a whole array.
fn doubled_weight<R: Rule>(below: &R, station: usize) -> i64
    ensures { result ≡ stretch_weight 2 (R.meaning below.now).weighting.weight station }
{
    if station % 2 == 0 {
        2 * below.weight(station / 2)
    } else {
        0
    }
}

// Richardson's combination of two panels and the rule stretched by two.
fn combination(factor: u64, left: i64, right: i64, coarse: i64) -> i64
    requires factor { factor ≤ 2048 }
    requires left { unsigned_abs left ≤ 2 ^ 40 }
    requires right { unsigned_abs right ≤ 2 ^ 40 }
    requires coarse { unsigned_abs coarse ≤ 2 ^ 41 }
    ensures { result ≡ (pos factor *ℤ (left +ℤ right)) -ℤ coarse }
{
    factor as i64 * (left + right) - coarse
}

// The weight of the refinement by `factor`: two panels of `span` against the rule stretched by two.
fn refined_weight<R: Rule>(below: &R, factor: u64, span: usize, station: usize) -> i64
    requires { factor ≤ 2048 }
    ensures { result ≡ refine_weight factor span (R.meaning below.now).weighting.weight station }
{
    let left = below.weight(station);
    let right = shifted_weight(below, span, station);
    combination(factor, left, right, doubled_weight(below, station))
}

// The weights of the refinement by `factor`. Its bound stands in each clause: three private functions hand it on, and a type for it would say no more.
pub(crate) fn refine_weights<R: Rule>(below: &R, factor: u64) -> [i64; 1025]
    requires small { factor ≤ 2048 }
    requires within { 2 * (R.meaning below.now).span ≤ 1024 }
    ensures { Holds result (refine_weight factor (R.meaning below.now).span (R.meaning below.now).weighting.weight) }
{
    let span = below.span();
    filled(
        2 * span,
        |station| refined_weight(below, factor, span, station),
    )
}

// The weights divided by `divisor`.
pub(crate) fn reduce_weights<R: Rule>(below: &R, divisor: u64) -> [i64; 1025]
    requires some { 1 ≤ divisor }
    requires small { divisor ≤ 2 ^ 31 }
    ensures { Holds result (reduce_weight divisor (R.meaning below.now).weighting.weight) }
{
    filled(below.span(), |station| {
        below.weight(station) / divisor as i64
    })
}
