// A refusal: why, in which part of the library, and where.
ghost use Rattle.std.specs.Prelude.{◌≡◌, Some};
ghost use Rattle.rules.specs.Faults.{fault_text, number_of, name_of};

use std::fmt;

// Why a call is refused. The number of a case is the one that a report prints.
#[derive(Clone, Copy, PartialEq, Eq, Debug)]
pub enum Cause {
    // a list of weights that is not 2 to 17 long
    ListLength = 1,
    // a denominator that is 0 or above 1,048,576
    DenominatorRange = 2,
    // absolute weights that sum to more than 1,048,576
    WeightSum = 3,
    // a degree above 9
    WrittenDegree = 4,
    // a power up to the degree that is not integrated exactly
    NotExact = 5,
    // a panel or stretch count of 0
    CountZero = 6,
    // a span above 1,024
    SpanLimit = 7,
    // a degree above 11
    DegreeLimit = 8,
    // a ceiling above 2^40 or a denominator above 2^31
    SizeLimit = 9,
    // more than 12 coefficients
    CoefficientCount = 10,
    // a number beyond the range of a reading
    ReadingRange = 11,
    // a count or array length of 0 or above 1,025, or lengths that differ
    CountRange = 12,
    // a station that is not above the one before it, or above 1,024
    StationOrder = 13,
    // a wrong number of bytes
    ByteLength = 14,
    // a tolerance above 1,048,576
    ToleranceRange = 15,
    // a component that the reading kind does not have
    NoComponent = 16,
    // a force component that is not a whole number within the range
    ForceComponent = 17,
    // a station beyond the span
    StationBeyondSpan = 18,
    // a run that is published
    Published = 19,
    // a station with no reading to strike
    NothingToStrike = 20,
    // a station of nonzero weight with no reading
    EmptyStation = 21,
    // two runs whose spans differ
    SpansDiffer = 22,
    // a buffer shorter than what it is to hold
    BufferShort = 23,
    // a base code or refinement count that is not offered
    NotOffered = 24,
}

impl Cause {
    // The number that a report prints. A method as `name` is, since a fault is told by number and name together, and `u8::from(cause)` would say neither.
    pub fn number(self) -> u8
        ensures { result ≡ number_of self }
    {
        self as u8
    }
}

// The part of the library that refuses. The number of a case is the one that stands for it in C.
#[derive(Clone, Copy, PartialEq, Eq, Debug)]
pub enum Origin {
    Rule = 1,
    Layer = 2,
    Source = 3,
    Run = 4,
    // the second of two runs
    Other = 5,
    Order = 6,
    Output = 7,
}

impl Origin {
    // The name that a report prints. `Display` prints it too; a line of fixed room is given the text.
    pub fn name(self) -> &'static str
        ensures { result.now ≡ name_of self }
    {
        match self {
            Origin::Rule => "RULE",
            Origin::Layer => "LAYER",
            Origin::Source => "SOURCE",
            Origin::Run => "RUN",
            Origin::Other => "OTHER",
            Origin::Order => "ORDER",
            Origin::Output => "OUTPUT",
        }
    }

    // A refusal from this part.
    pub fn fault(self, cause: Cause, place: usize) -> Fault
        ensures { result ≡ record { cause = cause; layer = self; place = place } }
    {
        Fault {
            cause,
            layer: self,
            place,
        }
    }
}

impl fmt::Display for Origin {
    ghost output = { λ origin. Some (name_of origin) };

    fn fmt<W: fmt::Write>(&self, f: &mut fmt::Formatter<W>) -> fmt::Result {
        f.write_str(self.name())
    }
}

// A numbered refusal: its cause, the layer of the library that it comes from and its place there.
#[derive(Clone, Copy, PartialEq, Eq, Debug)]
pub struct Fault {
    pub cause: Cause,
    pub layer: Origin,
    pub place: usize,
}

// As a report has it, after the word REFUSED: number, layer and place.
impl fmt::Display for Fault {
    ghost output = { λ f. Some (fault_text f) };

    fn fmt<W: fmt::Write>(&self, f: &mut fmt::Formatter<W>) -> fmt::Result {
        write!(f, "{} {} {}", self.cause.number(), self.layer, self.place)
    }
}
