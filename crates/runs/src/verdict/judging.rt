// Two runs are judged by the bands of their results.
ghost use Rattle.std.specs.Prelude.{◌≡◌};
ghost use Rattle.rules.specs.declared.fault.Origin.TheVariants.{Other};
ghost use Rattle.runs.specs.Ledger.{estimate_of};
ghost use Rattle.runs.specs.Recorded.{ledger_of};
ghost use Rattle.runs.specs.Totals.{lowest_empty, empty_station, given};
ghost use Rattle.runs.specs.Verdicts.{Separates, verdict_of};

use super::Verdict;
use crate::estimate::Estimate;
use crate::run::Run;
use rules::{Cause, Fault, Origin, Rule};

impl<R: Rule> Run<R> {
    // The result, refused as that of the second of two runs.
    fn result_as_other(&self) -> Result<Estimate, Fault>
        ensures { result ≡ given (empty_station Other (lowest_empty (R.meaning self.now.rule).weighting (ledger_of self.now).readings)) (estimate_of (R.meaning self.now.rule) (ledger_of self.now).readings) }
    {
        self.result().map_err(|fault| Fault {
            layer: Origin::Other,
            ..fault
        })
    }

    // Whether the results of two runs over the same span tell their integrals apart, by the ends of the bands.
    pub fn verdict<Q: Rule>(&self, other: &Run<Q>) -> Result<Verdict, Fault>
        ensures value { result ≡ verdict_of (R.Rule.meaning self.now.rule) (ledger_of self.now) (Q.Rule.meaning other.now.rule) (ledger_of other.now) }
        ensures bands { Separates (R.Rule.meaning self.now.rule) (ledger_of self.now) (Q.Rule.meaning other.now.rule) (ledger_of other.now) result }
    {
        if self.span() != other.span() {
            return Err(Origin::Run.fault(Cause::SpansDiffer, 0));
        }
        let first = self.result()?;
        let second = other.result_as_other()?;
        if first.is_apart_from(&second) {
            Ok(Verdict::Apart)
        } else {
            Ok(Verdict::Meet)
        }
    }
}
