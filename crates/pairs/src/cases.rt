// From the bytes of two cases to the verdict on their results.
ghost use Rattle.std.specs.Prelude.{◌≡◌, map};
ghost use Rattle.rules.specs.BuiltIn.{meaning_of_row, row_of};
ghost use Rattle.sources.specs.Surveys.{surveyed};
ghost use Rattle.runs.specs.Recorded.{entry_of};
ghost use Rattle.claims.specs.Laws.{VerdictLaw, verdict_between};
ghost use Rattle.claims.specs.Replays.{replayed};
ghost use Rattle.session.specs.Orders.{parts};
ghost use Rattle.pairs.specs.Accounts.{account_of_case, account_of_order, verdict_on_bytes};

use crate::splitting::Pair;
use claims::{Case, settle};
use rules::{BuiltIn, Fault};
use runs::{Call, Verdict};
use session::Order;
use sources::Survey;

// Settles a case with one whose survey is still to be read.
fn settled_with(
    first: Case<BuiltIn, Survey>,
    second: Order,
    survey: &[u8],
) -> Option<Result<Verdict, Fault>>
    ensures { result ≡ verdict_between (replayed (meaning_of_row (row_of first.entry.bottom)) first.entry.layers.now (map (entry_of surveyed) first.entry.calls.now) 1) (account_of_order (parts second) survey.now) }
{
    let calls = [Call::Load(Survey::read(survey).ok()?)];
    let second_layers = second.layers();
    let second = Case {
        bottom: second.base(),
        layers: &second_layers,
        calls: &calls,
    };
    settle(first, &mut [Ok(None)], second, &mut [Ok(None)]).verdict
}

// Settles two cases whose surveys are still to be read.
// Three functions and not one: each clears its large values before its first line, and what is refused earlier needs none of them.
fn settled(first: Order, second: Order, pair: Pair) -> Option<Result<Verdict, Fault>>
    ensures { result ≡ verdict_between (account_of_order (parts first) pair.entry.first.survey.now) (account_of_order (parts second) pair.entry.second.survey.now) }
{
    let calls = [Call::Load(Survey::read(pair.first.survey).ok()?)];
    let first_layers = first.layers();
    let first = Case {
        bottom: first.base(),
        layers: &first_layers,
        calls: &calls,
    };
    settled_with(first, second, pair.second.survey)
}

// The verdict on two cases, or its refusal; none where an order, a pile or a survey is refused.
// `law` says what it means: two cases are told apart exactly where their bands share no number, and never where one polynomial fits both.
pub fn verdict(pair: Pair) -> Option<Result<Verdict, Fault>>
    ensures value { result ≡ verdict_on_bytes pair.entry.first.order.now pair.entry.first.survey.now pair.entry.second.order.now pair.entry.second.survey.now }
    ensures law { VerdictLaw (account_of_case pair.entry.first.order.now pair.entry.first.survey.now) (account_of_case pair.entry.second.order.now pair.entry.second.survey.now) result }
{
    let first = Order::read(pair.first.order).ok()?;
    let second = Order::read(pair.second.order).ok()?;
    settled(first, second, pair)
}
