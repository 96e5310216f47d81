// A list of calls, replayed on a new run.
ghost use Rattle.std.specs.Prelude.{◌≡◌, ◌≤◌, ◌++◌, map, length, drop};
ghost use Rattle.rules.specs.Tables.{told};
ghost use Rattle.std.specs.Result.{result_map_both};
ghost use Rattle.runs.specs.Recorded.{entry_of, ledger_of};
ghost use Rattle.claims.specs.Histories.{ledger_from, replies_from};
ghost use Rattle.claims.specs.Replays.{account_of, replayed, replies_left};

use layers::{Layer, pile};
use rules::{Cause, Fault, Origin, Rule, Table};
use runs::{Call, Reply, Run};
use sources::Source;

// What one caller did: a rule, the layers on it from the bottom, and the calls on a new run over that pile.
#[derive(Drop)]
pub struct Case<'a, B, S> {
    pub bottom: B,
    pub layers: &'a [Layer],
    pub calls: &'a [Call<S>],
}

// Performs the calls one after the other; there is a place for each reply.
// `battenlime` above has this loop over other types of call and of reply: one function for both, given what a call performs as a closure or a trait, would state each step through it, at more length than this.
fn perform_all<S: Source>(run: &mut Run<Table>, calls: &[Call<S>], replies: &mut [Reply])
    requires { length calls.now ≤ length replies.old }
    ensures ledger { ledger_of run.new ≡ ledger_from (told run.old.rule) (ledger_of run.old) (map (entry_of S.Source.meaning) calls.now) }
    ensures rule { run.new.rule ≡ run.old.rule }
    ensures replies { replies.new ≡ replies_from (told run.old.rule) (ledger_of run.old) (map (entry_of S.Source.meaning) calls.now) ++ drop (length calls.now) replies.old }
{
    // tried `replies.iter_mut().zip(calls)`, after which a proof knows nothing of what the places hold
    for (index, call) in calls.iter().enumerate() {
        replies[index] = run.perform(call);
    }
}

// Replays a case and writes the reply to each call. The run is handed back, so that more calls can follow.
// Refused by a layer, or where there are fewer places than calls; the places stay as they were then.
pub fn replay<B: Rule + Drop, S: Source>(
    case: Case<B, S>,
    replies: &mut [Reply],
) -> Result<Run<Table>, Fault>
    ensures account { result_map_both account_of (λ e. e) result ≡ replayed (B.Rule.meaning case.entry.bottom) case.entry.layers.now (map (entry_of S.Source.meaning) case.entry.calls.now) (length replies.old) }
    ensures replies { replies.new ≡ replies_left (replayed (B.Rule.meaning case.entry.bottom) case.entry.layers.now (map (entry_of S.Source.meaning) case.entry.calls.now) (length replies.old)) (map (entry_of S.Source.meaning) case.entry.calls.now) replies.old }
{
    let Case {
        bottom,
        layers,
        calls,
    } = case;
    let rule = pile(bottom, layers)?;
    if replies.len() < calls.len() {
        return Err(Origin::Output.fault(Cause::BufferShort, calls.len()));
    }
    let mut run = Run::new(rule);
    perform_all(&mut run, calls, replies);
    Ok(run)
}
