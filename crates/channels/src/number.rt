// The plain number, a kind of one component.
ghost use Rattle.std.specs.Prelude.{◌≡◌};
ghost use Rattle.channels.specs.Numbers.{number_made, number_told};
ghost use Rattle.std.proofs.Common.{rules};

use crate::kind::{ReadingKind, reading_or_zero};
use rules::{Cause, Fault, Origin};
use sources::is_in_range;

// One whole number. By a rule of the project it is a plain record with no invariant: a field beyond the range of a reading, which no making hands out, tells 0.
#[derive(Clone, Copy, PartialEq, Eq, Debug)]
pub struct Number {
    value: i64,
}

// The number, refused beyond the range of a reading.
impl TryFrom<i64> for Number {
    type Error = Fault;

    ghost try_from_gives = { λ value made. made ≡ number_made value };

    fn try_from(value: i64) -> Result<Number, Fault> {
        if is_in_range(value) {
            Ok(Number { value })
        } else {
            Err(Origin::Source.fault(Cause::ReadingRange, 0))
        }
    }
}

impl ReadingKind for Number {
    const COMPONENTS: usize = 1;

    ghost count = { 1 };

    ghost told = { number_told };

    ghost count_least = { Prim.search rules };

    ghost count_most = { Prim.search rules };

    ghost in_range = { Prim.search rules };

    ghost none_beyond = { Prim.search rules };

    fn component_count() -> usize {
        Self::COMPONENTS
    }

    fn component(&self, index: usize) -> i64 {
        if index == 0 {
            reading_or_zero(self.value)
        } else {
            0
        }
    }
}
