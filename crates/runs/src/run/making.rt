// A new run, and its result.
ghost use Rattle.std.specs.Prelude.{◌≡◌};
ghost use Rattle.runs.specs.Ledger.{blank, result_of};
ghost use Rattle.runs.specs.Recorded.{ledger_of};

use super::{Run, State};
use crate::band::Band;
use crate::estimate::Estimate;
use crate::held::Held;
use crate::sum::total;
use rules::{Fault, Rule};

impl<R: Rule> Run<R> {
    // A run that holds nothing yet.
    pub fn new(rule: R) -> Run<R>
        ensures ledger { ledger_of result ≡ blank }
        ensures rule { result.rule ≡ rule }
    {
        Run {
            rule,
            held: Held::empty(),
            state: State::Gathering,
        }
    }

    // The integral of what is held, whether published or not.
    pub fn result(&self) -> Result<Estimate, Fault>
        ensures { result ≡ result_of (R.meaning self.now.rule) (ledger_of self.now).readings }
    {
        let Band { value, radius } = total(&self.rule, &self.held)?;
        Ok(Estimate {
            value,
            radius,
            degree: self.rule.degree(),
        })
    }

    // The last station of the run.
    pub fn span(&self) -> usize
        ensures { result ≡ (R.meaning self.now.rule).span }
    {
        self.rule.span()
    }
}
