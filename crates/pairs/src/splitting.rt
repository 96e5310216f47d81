// Two cases that stand in one input, one after the other.
ghost use Rattle.std.specs.Prelude.{◌≡◌, take, drop};
ghost use Rattle.pairs.specs.Splits.{after_first, survey_length};

use session::Input;

// The bytes of a survey before its stations, and those of one station and its reading.
const HEADER: usize = 6;

const ENTRY_BYTES: usize = 6;

// Two cases, each an order and a survey.
#[derive(Clone, Copy)]
pub struct Pair<'a> {
    pub first: Input<'a>,
    pub second: Input<'a>,
}

// How long a survey is that these bytes begin with, by its count.
fn survey_bytes(bytes: &[u8]) -> usize
    ensures { result ≡ survey_length bytes.now }
{
    let [high, low, ..] = bytes else {
        return HEADER;
    };
    HEADER + ENTRY_BYTES * u16::from_be_bytes([*high, *low]) as usize
}

// Splits an input into two cases. The first survey is as long as its count says; what is left is the second case.
pub fn split(input: &[u8]) -> Pair
    ensures first_order { result.first.order.now ≡ take 6 input.now }
    ensures first_survey { result.first.survey.now ≡ take (survey_length (drop 6 input.now)) (drop 6 input.now) }
    ensures second_order { result.second.order.now ≡ take 6 (after_first input.now) }
    ensures second_survey { result.second.survey.now ≡ drop 6 (after_first input.now) }
{
    let Input {
        order,
        survey: rest,
    } = Input::split(input);
    let (survey, second) = rest
        .split_at_checked(survey_bytes(rest))
        .unwrap_or((rest, &[]));
    Pair {
        first: Input { order, survey },
        second: Input::split(second),
    }
}
