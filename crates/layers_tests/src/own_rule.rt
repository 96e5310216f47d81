// A rule of a type that the library does not have.
ghost use Rattle.layers_tests.specs.OwnRule.{lopsided_rule};
ghost use Rattle.layers_tests.specs.OwnRuleLemmas.{lopsided_sound};

use rules::Rule;

// Weights 8, −6, 24, −2 over 8: exact to the degree 2 and not the same from both ends. The ceiling is one more than the absolute weights sum to.
#[derive(Clone, Copy)]
pub struct Lopsided;

impl Rule for Lopsided {
    ghost meaning = { λ _. lopsided_rule };

    ghost sound = { λ _. lopsided_sound };

    fn span(&self) -> usize {
        3
    }

    fn weight(&self, station: usize) -> i64 {
        match station {
            0 => 8,
            1 => -6,
            2 => 24,
            3 => -2,
            _ => 0,
        }
    }

    fn denominator(&self) -> u64 {
        8
    }

    fn degree(&self) -> usize {
        2
    }

    fn is_symmetric(&self) -> bool {
        false
    }

    fn ceiling(&self) -> u64 {
        41
    }
}
