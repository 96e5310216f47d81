// A list of calls on a run, with the reply to each.
mod performing;

ghost use Rattle.std.specs.Prelude.{◌≡◌, length};
ghost use Rattle.session.specs.Orders.{parts};
ghost use Rattle.pairs.specs.Accounts.{account_of_order};
ghost use Rattle.battenlime.specs.Replays.{refusal_told, replies_left, started, started_by};

use crate::records::{CallRecord, EstimateRecord, RefusalRecord};
use performing::perform_all;
use rules::{Cause, Fault, Origin};
use runs::Run;
use session::{Input, Order};
use sources::Survey;

// Performs the calls on a new run over the rule that is ordered, with the survey loaded.
// Apart from `replayed`, since a function clears its large values before its first line, and a refused order needs none of them.
// The first steps are those of `session::estimate`, which hands out no run: in a `Result` it would be moved once more.
fn performed(
    order: Order,
    survey: &[u8],
    calls: &[CallRecord],
    replies: &mut [EstimateRecord],
) -> Result<(), Fault>
    ensures refusal { refusal_told result ≡ refusal_told (started_by (account_of_order (parts order) survey.now) (length calls.now) (length replies.old)) }
    ensures replies { replies.new ≡ replies_left (started_by (account_of_order (parts order) survey.now) (length calls.now) (length replies.old)) calls.now replies.old }
{
    let pile = order.pile()?;
    let readings = Survey::read(survey)?;
    if replies.len() < calls.len() {
        return Err(Origin::Output.fault(Cause::BufferShort, calls.len()));
    }
    let mut run = Run::new(pile);
    run.load(&readings)?;
    perform_all(&mut run, calls, replies);
    Ok(())
}

// The same where the order is still to be read.
fn replayed(input: Input, calls: &[CallRecord], replies: &mut [EstimateRecord]) -> Result<(), Fault>
    ensures refusal { refusal_told result ≡ refusal_told (started input.entry.order.now input.entry.survey.now (length calls.now) (length replies.old)) }
    ensures replies { replies.new ≡ replies_left (started input.entry.order.now input.entry.survey.now (length calls.now) (length replies.old)) calls.now replies.old }
{
    performed(Order::read(input.order)?, input.survey, calls, replies)
}

// Gives a new run over the rule that is ordered, with the survey loaded, the calls in their order, and writes the reply to each.
// Told is why there is no run, or that there are fewer places than calls; the places stay as they were then.
pub fn battenlime_replay(
    order: &[u8],
    survey: &[u8],
    calls: &[CallRecord],
    replies: &mut [EstimateRecord],
) -> RefusalRecord
    ensures refusal { result ≡ refusal_told (started order.now survey.now (length calls.now) (length replies.old)) }
    ensures replies { replies.new ≡ replies_left (started order.now survey.now (length calls.now) (length replies.old)) calls.now replies.old }
{
    replayed(Input { order, survey }, calls, replies)
        .err()
        .into()
}
