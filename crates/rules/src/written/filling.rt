// The table that holds an accepted list of weights.
ghost use Rattle.std.specs.Prelude.{◌≡◌, suc, None};
ghost use Rattle.rules.specs.Tables.{told};
ghost use Rattle.rules.specs.Written.{accepted, degree_told, first_failing, integrates, weight_in};

use super::checks::Listed;
use crate::table::Table;

impl Listed<'_> {
    // The weights of the list, and 0 past its end. `sources` has the like for another size; one function for both would be public and would have to say what becomes of a longer list.
    fn spread(&self) -> [i64; 1025]
        ensures { weight_in result ≡ weight_in self.now.weights.now }
    {
        let mut row = [0; 1025];
        row[..self.weights.len()].copy_from_slice(self.weights);
        row
    }

    // The degree that is told: a symmetric rule that is exact up to an even degree is exact up to the next one too.
    fn degree_told(&self, symmetric: bool) -> usize
        ensures { result ≡ degree_told symmetric self.now.degree }
    {
        if symmetric && self.degree % 2 == 0 {
            self.degree + 1
        } else {
            self.degree
        }
    }

    // The table of a list with which every power up to its degree is integrated exactly.
    pub(super) fn table(&self) -> Table
        requires { first_failing (suc self.now.degree) (integrates self.now.weights.now self.now.denominator) ≡ None }
        ensures { told result ≡ accepted self.now.weights.now self.now.denominator self.now.degree }
    {
        let symmetric = self.is_mirrored();
        let degree = self.degree_told(symmetric);
        let weights = self.spread();
        Table {
            span: self.weights.len() - 1,
            denominator: self.denominator,
            degree,
            symmetric,
            ceiling: self.ceiling,
            weights,
        }
    }
}
