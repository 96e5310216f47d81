// The verdict on two sessions.
ghost use Rattle.std.specs.Prelude.{◌≡◌};
ghost use Rattle.claims.specs.Laws.{VerdictLaw};
ghost use Rattle.pairs.specs.Accounts.{account_of_case, verdict_on_bytes};
ghost use Rattle.battenlime.specs.Records.{verdict_shown};

use crate::records::VerdictRecord;
use pairs::{Pair, verdict};
use session::Input;

// Settles two cases, each an order and a survey.
// `law` says what the verdict means: two cases are told apart exactly where their bands share no number, and never where one polynomial fits both.
pub fn battenlime_settle<'a>(
    first_order: &'a [u8],
    first_survey: &'a [u8],
    second_order: &'a [u8],
    second_survey: &'a [u8],
) -> VerdictRecord
    ensures value { result ≡ verdict_shown (verdict_on_bytes first_order.now first_survey.now second_order.now second_survey.now) }
    ensures law { VerdictLaw (account_of_case first_order.now first_survey.now) (account_of_case second_order.now second_survey.now) (verdict_on_bytes first_order.now first_survey.now second_order.now second_survey.now) }
{
    verdict(Pair {
        first: Input {
            order: first_order,
            survey: first_survey,
        },
        second: Input {
            order: second_order,
            survey: second_survey,
        },
    })
    .into()
}
