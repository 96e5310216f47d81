// The rules that are built in: the closed Newton–Cotes rules of 2 to 9 points, the midpoint rule and the left rectangle.
ghost use Rattle.std.specs.Prelude.{◌≡◌};
ghost use Rattle.rules.specs.BuiltIn.{code_of, of_code, row_of, meaning_of_row};
ghost use Rattle.rules.specs.Rows.{built_in_sound};

use crate::fault::{Cause, Fault, Origin};
use crate::rule::Rule;

// A built-in rule; the number of a case is its code.
#[derive(Clone, Copy, PartialEq, Eq, Debug)]
pub enum BuiltIn {
    Trapezoid = 1,
    Simpson = 2,
    ThreeEighths = 3,
    Boole = 4,
    SixPoint = 5,
    SevenPoint = 6,
    EightPoint = 7,
    NinePoint = 8,
    Midpoint = 9,
    LeftRectangle = 10,
}

// One row of the table: the weights at the stations 0 to 8, 0 beyond the span.
// No `Table`, whose 1,025 weights would be copied at each question; one computed test over all rows shows that they keep the promises of a rule.
// A slice as long as the span was tried for the weights: a reference denotes its address too, so the rows of the definition would be more than their numbers.
#[derive(Clone, Copy)]
pub(crate) struct Row {
    span: usize,
    denominator: u64,
    degree: usize,
    symmetric: bool,
    // the sum of the absolute weights
    ceiling: u64,
    weights: [i64; 9],
}

// Row c - 1 is the rule of code c.
const ROWS: [Row; 10] = [
    Row {
        span: 1,
        denominator: 2,
        degree: 1,
        symmetric: true,
        ceiling: 2,
        weights: [1, 1, 0, 0, 0, 0, 0, 0, 0],
    },
    Row {
        span: 2,
        denominator: 3,
        degree: 3,
        symmetric: true,
        ceiling: 6,
        weights: [1, 4, 1, 0, 0, 0, 0, 0, 0],
    },
    Row {
        span: 3,
        denominator: 8,
        degree: 3,
        symmetric: true,
        ceiling: 24,
        weights: [3, 9, 9, 3, 0, 0, 0, 0, 0],
    },
    Row {
        span: 4,
        denominator: 45,
        degree: 5,
        symmetric: true,
        ceiling: 180,
        weights: [14, 64, 24, 64, 14, 0, 0, 0, 0],
    },
    Row {
        span: 5,
        denominator: 288,
        degree: 5,
        symmetric: true,
        ceiling: 1440,
        weights: [95, 375, 250, 250, 375, 95, 0, 0, 0],
    },
    Row {
        span: 6,
        denominator: 140,
        degree: 7,
        symmetric: true,
        ceiling: 840,
        weights: [41, 216, 27, 272, 27, 216, 41, 0, 0],
    },
    Row {
        span: 7,
        denominator: 17280,
        degree: 7,
        symmetric: true,
        ceiling: 120960,
        weights: [5257, 25039, 9261, 20923, 20923, 9261, 25039, 5257, 0],
    },
    Row {
        span: 8,
        denominator: 14175,
        degree: 9,
        symmetric: true,
        ceiling: 164568,
        weights: [3956, 23552, -3712, 41984, -18160, 41984, -3712, 23552, 3956],
    },
    Row {
        span: 2,
        denominator: 1,
        degree: 1,
        symmetric: true,
        ceiling: 2,
        weights: [0, 2, 0, 0, 0, 0, 0, 0, 0],
    },
    Row {
        span: 1,
        denominator: 1,
        degree: 0,
        symmetric: false,
        ceiling: 1,
        weights: [1, 0, 0, 0, 0, 0, 0, 0, 0],
    },
];

// The rule of a code; refused unless the code is 1 to 10.
impl TryFrom<u8> for BuiltIn {
    type Error = Fault;

    ghost try_from_gives = { λ code rule. rule ≡ of_code code };

    fn try_from(code: u8) -> Result<BuiltIn, Fault> {
        match code {
            1 => Ok(BuiltIn::Trapezoid),
            2 => Ok(BuiltIn::Simpson),
            3 => Ok(BuiltIn::ThreeEighths),
            4 => Ok(BuiltIn::Boole),
            5 => Ok(BuiltIn::SixPoint),
            6 => Ok(BuiltIn::SevenPoint),
            7 => Ok(BuiltIn::EightPoint),
            8 => Ok(BuiltIn::NinePoint),
            9 => Ok(BuiltIn::Midpoint),
            10 => Ok(BuiltIn::LeftRectangle),
            _ => Err(Origin::Order.fault(Cause::NotOffered, 0)),
        }
    }
}

// The code, 1 to 10.
impl From<BuiltIn> for u8 {
    ghost from_gives = { λ rule code. code ≡ code_of rule };

    fn from(rule: BuiltIn) -> u8 {
        rule as u8
    }
}

impl BuiltIn {
    fn row(self) -> Row
        ensures { result ≡ row_of self }
    {
        ROWS[self as usize - 1]
    }
}

impl Rule for BuiltIn {
    ghost meaning = { λ b. meaning_of_row (row_of b) };

    ghost sound = { built_in_sound };

    fn span(&self) -> usize {
        self.row().span
    }

    fn weight(&self, station: usize) -> i64 {
        if station < 9 {
            self.row().weights[station]
        } else {
            0
        }
    }

    fn denominator(&self) -> u64 {
        self.row().denominator
    }

    fn degree(&self) -> usize {
        self.row().degree
    }

    fn is_symmetric(&self) -> bool {
        self.row().symmetric
    }

    fn ceiling(&self) -> u64 {
        self.row().ceiling
    }
}
