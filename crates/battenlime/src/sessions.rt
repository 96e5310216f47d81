// Sessions: an order and a survey in bytes, the result as a line of text or as numbers. `within` as in a session's report.
ghost use Rattle.std.specs.Prelude.{◌≡◌, ◌≤◌, length, take, drop};
ghost use Rattle.session.specs.Sessions.{estimated, reported};
ghost use Rattle.battenlime.specs.Records.{estimate_shown, line_shown};

use crate::records::{EstimateRecord, LineRecord};
use session::{Input, answer, estimate, report};

// Writes the result, or the refusal, as one line into the buffer. Where the line does not fit the buffer stays as it was.
pub fn battenlime_report(order: &[u8], survey: &[u8], out: &mut [u8]) -> LineRecord
    ensures buffer { out.new ≡ (reported (estimated order.now survey.now) out.old).buffer }
    ensures line { result ≡ line_shown (reported (estimated order.now survey.now) out.old).report }
    ensures within { result.len ≤ length out.old }
{
    report(Input { order, survey }, out).into()
}

// The same with order and survey in one input. An input shorter than an order is a short order.
pub fn battenlime_answer(input: &[u8], out: &mut [u8]) -> LineRecord
    ensures buffer { out.new ≡ (reported (estimated (take 6 input.now) (drop 6 input.now)) out.old).buffer }
    ensures line { result ≡ line_shown (reported (estimated (take 6 input.now) (drop 6 input.now)) out.old).report }
    ensures within { result.len ≤ length out.old }
{
    answer(input, out).into()
}

// The result as numbers.
pub fn battenlime_integrate(order: &[u8], survey: &[u8]) -> EstimateRecord
    ensures { result ≡ estimate_shown (estimated order.now survey.now) }
{
    estimate(Input { order, survey }).into()
}
