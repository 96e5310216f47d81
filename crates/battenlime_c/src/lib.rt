// The static library for callers in C and Rust: each export is the call of the same name of the library.
// The six functions stand here again, as a crate is built as a library or as a static library and not as both. `within` as in a session's report.
#![tactic(auto)]

ghost use Rattle.std.specs.Prelude.{◌≡◌, ◌≤◌, length, take, drop};
ghost use Rattle.claims.specs.Laws.{VerdictLaw};
ghost use Rattle.session.specs.Sessions.{estimated, reported};
ghost use Rattle.pairs.specs.Accounts.{account_of_case, verdict_on_bytes};
ghost use Rattle.battenlime.specs.Records.{estimate_shown, line_shown, verdict_shown};
ghost use Rattle.battenlime.specs.Replays.{refusal_told, replies_left, started};
ghost use Rattle.battenlime.specs.Weights.{fitted, ordered, rule_shown, weights_left};

use battenlime::{
    CallRecord, EstimateRecord, LineRecord, RefusalRecord, RuleRecord, VerdictRecord,
};

// Writes the result, or the refusal, as one line into the buffer. Where the line does not fit the buffer stays as it was.
#[unsafe(no_mangle)]
pub extern "C" fn battenlime_report(order: &[u8], survey: &[u8], out: &mut [u8]) -> LineRecord
    ensures buffer { out.new ≡ (reported (estimated order.now survey.now) out.old).buffer }
    ensures line { result ≡ line_shown (reported (estimated order.now survey.now) out.old).report }
    ensures within { result.len ≤ length out.old }
{
    battenlime::battenlime_report(order, survey, out)
}

// The same with order and survey in one input. An input shorter than an order is a short order.
#[unsafe(no_mangle)]
pub extern "C" fn battenlime_answer(input: &[u8], out: &mut [u8]) -> LineRecord
    ensures buffer { out.new ≡ (reported (estimated (take 6 input.now) (drop 6 input.now)) out.old).buffer }
    ensures line { result ≡ line_shown (reported (estimated (take 6 input.now) (drop 6 input.now)) out.old).report }
    ensures within { result.len ≤ length out.old }
{
    battenlime::battenlime_answer(input, out)
}

// The result as numbers.
#[unsafe(no_mangle)]
pub extern "C" fn battenlime_integrate(order: &[u8], survey: &[u8]) -> EstimateRecord
    ensures { result ≡ estimate_shown (estimated order.now survey.now) }
{
    battenlime::battenlime_integrate(order, survey)
}

// The rule that an order asks for. Its weights, for the stations 0 to its span, stand at the front of the buffer; where there are too few places the buffer stays as it was.
#[unsafe(no_mangle)]
pub extern "C" fn battenlime_weights(order: &[u8], weights: &mut [i64]) -> RuleRecord
    ensures weights { weights.new ≡ weights_left (fitted (ordered order.now) (length weights.old)) weights.old }
    ensures rule { result ≡ rule_shown (fitted (ordered order.now) (length weights.old)) }
{
    battenlime::battenlime_weights(order, weights)
}

// Gives a new run over the rule that is ordered, with the survey loaded, the calls in their order, and writes the reply to each.
// Told is why there is no run, or that there are fewer places than calls; the places stay as they were then.
#[unsafe(no_mangle)]
pub extern "C" fn battenlime_replay(
    order: &[u8],
    survey: &[u8],
    calls: &[CallRecord],
    replies: &mut [EstimateRecord],
) -> RefusalRecord
    ensures refusal { result ≡ refusal_told (started order.now survey.now (length calls.now) (length replies.old)) }
    ensures replies { replies.new ≡ replies_left (started order.now survey.now (length calls.now) (length replies.old)) calls.now replies.old }
{
    battenlime::battenlime_replay(order, survey, calls, replies)
}

// Settles two cases, each an order and a survey.
// `law` says what the verdict means: two cases are told apart exactly where their bands share no number, and never where one polynomial fits both.
#[unsafe(no_mangle)]
pub extern "C" fn battenlime_settle<'a>(
    first_order: &'a [u8],
    first_survey: &'a [u8],
    second_order: &'a [u8],
    second_survey: &'a [u8],
) -> VerdictRecord
    ensures value { result ≡ verdict_shown (verdict_on_bytes first_order.now first_survey.now second_order.now second_survey.now) }
    ensures law { VerdictLaw (account_of_case first_order.now first_survey.now) (account_of_case second_order.now second_survey.now) (verdict_on_bytes first_order.now first_survey.now second_order.now second_survey.now) }
{
    battenlime::battenlime_settle(first_order, first_survey, second_order, second_survey)
}
