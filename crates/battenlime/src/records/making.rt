// Faults, lines, results and verdicts as records.
ghost use Rattle.std.specs.Prelude.{◌≡◌};
ghost use Rattle.battenlime.specs.Records.{estimate_shown, line_shown, refusal_shown, verdict_shown};

use super::{EstimateRecord, LineRecord, RefusalRecord, VerdictRecord};
use report::Written;
use rules::Fault;
use runs::{Estimate, Verdict};

impl From<Option<Fault>> for RefusalRecord {
    ghost from_gives = { λ fault shown. shown ≡ refusal_shown fault };

    fn from(fault: Option<Fault>) -> RefusalRecord {
        match fault {
            Some(fault) => RefusalRecord {
                number: fault.cause as u32,
                layer: fault.layer as u32,
                place: fault.place,
            },
            None => RefusalRecord::default(),
        }
    }
}

impl From<Written> for LineRecord {
    ghost from_gives = { λ written shown. shown ≡ line_shown written };

    fn from(written: Written) -> LineRecord {
        LineRecord {
            len: written.len,
            refusal: written.fault.into(),
        }
    }
}

impl From<Result<Estimate, Fault>> for EstimateRecord {
    ghost from_gives = { λ told shown. shown ≡ estimate_shown told };

    fn from(told: Result<Estimate, Fault>) -> EstimateRecord {
        match told {
            Ok(estimate) => EstimateRecord {
                numerator: estimate.value.0,
                denominator: estimate.value.1,
                radius: estimate.radius,
                degree: estimate.degree,
                ..EstimateRecord::default()
            },
            Err(fault) => EstimateRecord {
                refusal: Some(fault).into(),
                ..EstimateRecord::default()
            },
        }
    }
}

impl From<Option<Result<Verdict, Fault>>> for VerdictRecord {
    ghost from_gives = { λ told shown. shown ≡ verdict_shown told };

    fn from(told: Option<Result<Verdict, Fault>>) -> VerdictRecord {
        let (kind, fault) = match told {
            None => (0, None),
            Some(Ok(Verdict::Apart)) => (1, None),
            Some(Ok(Verdict::Meet)) => (2, None),
            Some(Err(fault)) => (3, Some(fault)),
        };
        VerdictRecord {
            kind,
            refusal: fault.into(),
        }
    }
}
