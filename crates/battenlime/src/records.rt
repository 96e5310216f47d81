// What crosses to another language: records of plain numbers, and what they stand for.
mod making;

// A refusal: its number, the number of its layer and its place. All are 0 where nothing is refused.
// C has no Option, so zeros stand for none, and the header has cause and layer as their numbers.
#[repr(C)]
#[derive(Clone, Copy, PartialEq, Eq, Debug, Default)]
pub struct RefusalRecord {
    pub number: u32,
    pub layer: u32,
    pub place: usize,
}

// The length of a line, 0 where it does not fit, and the refusal.
// C has no Option, so the refusal is zeros where there is none.
#[repr(C)]
#[derive(Clone, Copy, PartialEq, Eq, Debug, Default)]
pub struct LineRecord {
    pub len: usize,
    pub refusal: RefusalRecord,
}

// A result with its denominator, or zeros and a refusal.
// C has no Result, so one record has the fields of both outcomes.
#[repr(C)]
#[derive(Clone, Copy, PartialEq, Eq, Debug, Default)]
pub struct EstimateRecord {
    pub numerator: i64,
    pub denominator: u64,
    pub radius: i64,
    pub degree: usize,
    pub refusal: RefusalRecord,
}

// What a rule tells but its weights, or zeros and a refusal.
// C has no Result, so one record has the fields of both outcomes; the header has `symmetric` as the number 1 or 0.
#[repr(C)]
#[derive(Clone, Copy, PartialEq, Eq, Debug, Default)]
pub struct RuleRecord {
    pub span: usize,
    pub denominator: u64,
    pub degree: usize,
    pub ceiling: u64,
    pub symmetric: u32,
    pub refusal: RefusalRecord,
}

// A verdict by its number: 0 where there are not two runs, 1 apart, 2 meet, 3 refused.
// C has no enum with fields, so a number says the case.
#[repr(C)]
#[derive(Clone, Copy, PartialEq, Eq, Debug, Default)]
pub struct VerdictRecord {
    pub kind: u32,
    pub refusal: RefusalRecord,
}

// A call of a run by its number: 1 enter, 2 strike, 3 declare, 4 publish; any other asks for the result.
// A caller in C may pass any number, and an enum holds none but its own, so a number says the case.
#[repr(C)]
#[derive(Clone, Copy, PartialEq, Eq, Debug, Default)]
pub struct CallRecord {
    pub kind: u32,
    pub station: usize,
    pub value: i64,
    pub tolerance: u64,
}
