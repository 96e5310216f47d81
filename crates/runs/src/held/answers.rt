// What is held answers as a source.
ghost use Rattle.runs.specs.Holding.{readings_held};
ghost use Rattle.std.proofs.Common.{rules, arith};

use super::Held;
use sources::Source;

impl Source for Held {
    ghost meaning = { readings_held };

    ghost sound = { first_of (Prim.search rules, Prim.grind (arith, Self.row.coded.inj)) };

    fn reading(&self, station: usize) -> Option<i64> {
        self.row.reading(station)
    }

    fn tolerance(&self) -> u64 {
        self.tolerance
    }
}
