// A step table answers from its row; its readings are exact.
ghost use Rattle.sources.specs.StepTables.{tabled};
ghost use Rattle.std.proofs.Common.{rules, arith};

use super::StepTable;
use crate::source::{EXACT, Source};

impl Source for StepTable {
    ghost meaning = { tabled };

    ghost sound = { first_of (Prim.search rules, Prim.grind (arith, Self.row.coded.inj)) };

    fn reading(&self, station: usize) -> Option<i64> {
        self.readings.reading(station)
    }

    fn tolerance(&self) -> u64 {
        EXACT
    }
}
