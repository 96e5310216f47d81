// Two cases settled: whether their results can be of one load.
ghost use Rattle.std.specs.Prelude.{◌≡◌, map, length};
ghost use Rattle.std.specs.Result.{result_map_both};
ghost use Rattle.runs.specs.Recorded.{entry_of};
ghost use Rattle.claims.specs.Laws.{CaseLaw, VerdictLaw, verdict_between};
ghost use Rattle.claims.specs.Replays.{account_of, replayed, replies_left};

use crate::one_case::{Case, replay};
use rules::{Fault, Rule, Table};
use runs::{Reply, Run, Verdict};
use sources::Source;

// What two cases came to: each with its run or its refusal, and the verdict or its refusal where both have a run.
#[derive(Drop)]
pub struct Settlement {
    pub first: Result<Run<Table>, Fault>,
    pub second: Result<Run<Table>, Fault>,
    pub verdict: Option<Result<Verdict, Fault>>,
}

// The verdict on two runs, if there are two.
fn judged(
    first: &Result<Run<Table>, Fault>,
    second: &Result<Run<Table>, Fault>,
) -> Option<Result<Verdict, Fault>>
    ensures { result ≡ verdict_between (result_map_both account_of (λ e. e) first.now) (result_map_both account_of (λ e. e) second.now) }
{
    match (first, second) {
        (Ok(one), Ok(other)) => Some(one.verdict(other)),
        _ => None,
    }
}

// Replays two cases and judges their results. A refusal of one case takes nothing from the other.
pub fn settle<A: Rule + Drop, S: Source, B: Rule + Drop, T: Source>(
    first: Case<A, S>,
    first_replies: &mut [Reply],
    second: Case<B, T>,
    second_replies: &mut [Reply],
) -> Settlement
    ensures first { result_map_both account_of (λ e. e) result.first ≡ replayed (A.Rule.meaning first.entry.bottom) first.entry.layers.now (map (entry_of S.Source.meaning) first.entry.calls.now) (length first_replies.old) }
    ensures second { result_map_both account_of (λ e. e) result.second ≡ replayed (B.Rule.meaning second.entry.bottom) second.entry.layers.now (map (entry_of T.Source.meaning) second.entry.calls.now) (length second_replies.old) }
    ensures first_replies { first_replies.new ≡ replies_left (result_map_both account_of (λ e. e) result.first) (map (entry_of S.Source.meaning) first.entry.calls.now) first_replies.old }
    ensures second_replies { second_replies.new ≡ replies_left (result_map_both account_of (λ e. e) result.second) (map (entry_of T.Source.meaning) second.entry.calls.now) second_replies.old }
    ensures verdict { result.verdict ≡ verdict_between (result_map_both account_of (λ e. e) result.first) (result_map_both account_of (λ e. e) result.second) }
    ensures first_law { CaseLaw (A.Rule.meaning first.entry.bottom) first.entry.layers.now (map (entry_of S.Source.meaning) first.entry.calls.now) (result_map_both account_of (λ e. e) result.first) first_replies.new }
    ensures second_law { CaseLaw (B.Rule.meaning second.entry.bottom) second.entry.layers.now (map (entry_of T.Source.meaning) second.entry.calls.now) (result_map_both account_of (λ e. e) result.second) second_replies.new }
    ensures verdict_law { VerdictLaw (result_map_both account_of (λ e. e) result.first) (result_map_both account_of (λ e. e) result.second) result.verdict }
{
    let first = replay(first, first_replies);
    let second = replay(second, second_replies);
    let verdict = judged(&first, &second);
    Settlement {
        first,
        second,
        verdict,
    }
}
