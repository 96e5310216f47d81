// From bytes to the line of a report.
ghost use Rattle.std.specs.Prelude.{◌≡◌, ◌≤◌, length, take, drop};
ghost use Rattle.session.specs.Sessions.{estimated, reported};

use crate::input::Input;
use crate::order::Order;
use report::{Written, write_refusal, write_result};
use rules::Fault;
use runs::{Estimate, Run};
use sources::Survey;

// The result of a new run over the pile that is ordered, with the survey loaded.
pub fn estimate(input: Input) -> Result<Estimate, Fault>
    ensures { result ≡ estimated input.entry.order.now input.entry.survey.now }
{
    let pile = Order::read(input.order)?.pile()?;
    let readings = Survey::read(input.survey)?;
    let mut run = Run::new(pile);
    run.load(&readings)?;
    run.result()
}

// Writes the result, or the refusal, as one line into the buffer. Where the line does not fit the buffer stays as it was.
// `within` ties the reply to the buffer, which no type holds together; a caller cuts the line out by it.
pub fn report(input: Input, out: &mut [u8]) -> Written
    ensures buffer { out.new ≡ (reported (estimated input.entry.order.now input.entry.survey.now) out.old).buffer }
    ensures report { result ≡ (reported (estimated input.entry.order.now input.entry.survey.now) out.old).report }
    ensures within { result.len ≤ length out.old }
{
    match estimate(input) {
        Ok(estimate) => write_result(
            out,
            estimate.value.0,
            estimate.value.1,
            estimate.degree,
            estimate.radius,
        ),
        Err(fault) => write_refusal(out, fault),
    }
}

// The same with order and survey in one input. An input shorter than an order is a short order.
pub fn answer(input: &[u8], out: &mut [u8]) -> Written
    ensures buffer { out.new ≡ (reported (estimated (take 6 input.now) (drop 6 input.now)) out.old).buffer }
    ensures report { result ≡ (reported (estimated (take 6 input.now) (drop 6 input.now)) out.old).report }
    ensures within { result.len ≤ length out.old }
{
    report(Input::split(input), out)
}
