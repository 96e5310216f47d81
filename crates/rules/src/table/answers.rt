// A table answers from its fields.
ghost use Rattle.rules.specs.Tables.{told};

use super::Table;
use crate::rule::Rule;

impl Rule for Table {
    ghost meaning = { told };

    ghost sound = { λ table. table.sound };

    fn span(&self) -> usize {
        self.span
    }

    fn weight(&self, station: usize) -> i64 {
        if station <= self.span {
            self.weights[station]
        } else {
            0
        }
    }

    fn denominator(&self) -> u64 {
        self.denominator
    }

    fn degree(&self) -> usize {
        self.degree
    }

    fn is_symmetric(&self) -> bool {
        self.symmetric
    }

    fn ceiling(&self) -> u64 {
        self.ceiling
    }
}
