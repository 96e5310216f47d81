// Calls that come as records, performed one after the other.
ghost use Rattle.std.specs.Prelude.{◌≡◌, ◌≤◌, ◌++◌, map, length, drop};
ghost use Rattle.rules.specs.Tables.{told as told_by};
ghost use Rattle.runs.specs.Recorded.{entry_of, ledger_of};
ghost use Rattle.sources.specs.Surveys.{surveyed};
ghost use Rattle.claims.specs.Histories.{replies_from};
ghost use Rattle.battenlime.specs.Replays.{entry_meant, reply_shown};

use crate::records::{CallRecord, EstimateRecord};
use rules::Table;
use runs::{Call, Reply, Run};
use sources::Survey;

// The call that a record stands for.
impl From<CallRecord> for Call<Survey> {
    ghost from_gives = { λ call meant. entry_of surveyed meant ≡ entry_meant call };

    fn from(call: CallRecord) -> Call<Survey> {
        match call.kind {
            1 => Call::Enter {
                station: call.station,
                value: call.value,
            },
            2 => Call::Strike {
                station: call.station,
            },
            3 => Call::Declare {
                tolerance: call.tolerance,
            },
            4 => Call::Publish,
            _ => Call::Result,
        }
    }
}

// A reply as a record: zeros for a change that is made.
impl From<Reply> for EstimateRecord {
    ghost from_gives = { λ reply shown. shown ≡ reply_shown reply };

    fn from(reply: Reply) -> EstimateRecord {
        match reply.transpose() {
            Some(told) => told.into(),
            None => EstimateRecord::default(),
        }
    }
}

// Performs the calls one after the other; there is a place for each reply.
// The loop of `claims` has other types of call and of reply: one function for both, given what a call performs as a closure or a trait, would state each step through it, at more length than this.
// Not inlined, since the values of its loop would then stand on the stack beside those of the caller: 9 KB more.
#[inline(never)]
pub(super) fn perform_all(
    run: &mut Run<Table>,
    calls: &[CallRecord],
    replies: &mut [EstimateRecord],
)
    requires { length calls.now ≤ length replies.old }
    ensures { replies.new ≡ map reply_shown (replies_from (told_by run.old.rule) (ledger_of run.old) (map entry_meant calls.now)) ++ drop (length calls.now) replies.old }
{
    // tried `replies.iter_mut().zip(calls)`, after which a proof knows nothing of what the places hold
    for (index, call) in calls.iter().enumerate() {
        replies[index] = run.perform(&Call::from(*call)).into();
    }
}
