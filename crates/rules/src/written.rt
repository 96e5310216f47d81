// A rule that is written as a list of weights, and held until another list is accepted.
mod checks;
mod filling;

ghost use Rattle.std.specs.Prelude.{◌≡◌};
ghost use Rattle.rules.specs.Tables.{told};
ghost use Rattle.rules.specs.Written.{held, held_after, loading, mapped, reply, trapezoid};

use crate::fault::{Cause, Fault, Origin};
use crate::rule::Rule;
use crate::table::Table;
use checks::{Listed, absolute_sum};

// The most weights that a list may have.
const MOST_WEIGHTS: usize = 17;
// The greatest denominator.
const DENOMINATOR_LIMIT: u64 = 1_048_576;
// The greatest degree that a list may be given.
const DEGREE_LIMIT: usize = 9;
// The greatest sum of the absolute weights.
const SUM_LIMIT: u128 = 1_048_576;

// A written rule; it begins as the trapezoid.
#[derive(Drop)]
pub struct Written {
    table: Table,
}

// The table of a list of weights that passes every check, or the first refusal.
fn checked(weights: &[i64], denominator: u64, degree: usize) -> Result<Table, Fault>
    ensures { mapped told result ≡ loading weights.now denominator degree }
{
    if weights.len() < 2 || weights.len() > MOST_WEIGHTS {
        return Err(Origin::Rule.fault(Cause::ListLength, 0));
    }
    if denominator == 0 || denominator > DENOMINATOR_LIMIT {
        return Err(Origin::Rule.fault(Cause::DenominatorRange, 0));
    }
    if degree > DEGREE_LIMIT {
        return Err(Origin::Rule.fault(Cause::WrittenDegree, 0));
    }
    let ceiling = absolute_sum(weights);
    if ceiling > SUM_LIMIT {
        return Err(Origin::Rule.fault(Cause::WeightSum, 0));
    }
    let list = Listed {
        weights,
        denominator,
        degree,
        ceiling: ceiling as u64,
    };
    if let Some(power) = list.first_inexact() {
        return Err(Origin::Rule.fault(Cause::NotExact, power));
    }
    Ok(list.table())
}

impl Written {
    // The trapezoid.
    pub fn new() -> Written
        ensures { held result ≡ trapezoid }
    {
        let list = Listed {
            weights: &[1, 1],
            denominator: 2,
            degree: 1,
            ceiling: 2,
        };
        Written {
            table: list.table(),
        }
    }

    // Takes a list of weights for the stations 0 to one less than its length, with the denominator that they share and a degree up to which every power is
    // integrated exactly. A list that is refused leaves the rule as it was.
    pub fn load(&mut self, weights: &[i64], denominator: u64, degree: usize) -> Result<(), Fault>
        ensures replied { result ≡ reply (loading weights.now denominator degree) }
        ensures kept { held self.new ≡ held_after (loading weights.now denominator degree) (held self.old) }
    {
        self.table = checked(weights, denominator, degree)?;
        Ok(())
    }
}

impl Rule for Written {
    ghost meaning = { held };

    ghost sound = { λ rule. rule.table.sound };

    fn span(&self) -> usize {
        self.table.span()
    }

    fn weight(&self, station: usize) -> i64 {
        self.table.weight(station)
    }

    fn denominator(&self) -> u64 {
        self.table.denominator()
    }

    fn degree(&self) -> usize {
        self.table.degree()
    }

    fn is_symmetric(&self) -> bool {
        self.table.is_symmetric()
    }

    fn ceiling(&self) -> u64 {
        self.table.ceiling()
    }
}
