// Two callers over one beam load: what each is replied, and whether their results can be of one load.
#![tactic(auto)]

#[cfg(test)]
mod tests {
    use claims::{Case, Settlement, replay, settle};
    use layers::Layer;
    use rules::{BuiltIn, Cause, Fault, Origin};
    use runs::{Call, Estimate, Reply, Verdict};
    use sources::{Either, Polynomial, StepTable};
    use std::process::Abort;
    use std::test::Fail;

    // Sources of two kinds in one list of calls.
    type Load = Either<Polynomial, StepTable>;

    // What the tested places hold before a case, to see which of them it wrote.
    const GUARD: Reply = Err(Fault {
        cause: Cause::NotOffered,
        layer: Origin::Order,
        place: 77,
    });

    // A refusal is compared by its number and name, since a report prints these.
    // Other crates of tests have the like: a crate for a few lines would stand below them all.
    fn refused<T: Drop>(
        rt: &impl Abort,
        reply: Result<T, Fault>,
        number: u8,
        layer: &str,
        place: usize,
    ) -> Result<(), Fail> {
        let Err(fault) = reply else {
            return Err(Fail::new("not refused"));
        };
        assert_eq!(rt; fault.cause.number(), number);
        assert_eq!(rt; fault.layer.name(), layer);
        assert_eq!(rt; fault.place, place);
        Ok(())
    }

    // The replies to changes that are made.
    fn done(rt: &impl Abort, replies: &[Reply]) -> Result<(), Fail> {
        for reply in replies {
            assert_eq!(rt; *reply, Ok(None));
        }
        Ok(())
    }

    fn told(
        rt: &impl Abort,
        reply: Reply,
        value: (i64, u64),
        radius: i64,
        degree: usize,
    ) -> Result<(), Fail> {
        let told = Estimate {
            value,
            radius,
            degree,
        };
        assert_eq!(rt; reply, Ok(Some(told)));
        Ok(())
    }

    fn untouched(rt: &impl Abort, reply: Reply) -> Result<(), Fail> {
        refused(rt, reply, 24, "ORDER", 77)
    }

    fn is_apart(settled: &Settlement) -> Result<bool, Fail> {
        match settled.verdict {
            Some(verdict) => Ok(verdict? == Verdict::Apart),
            None => Err(Fail::new("no verdict")),
        }
    }

    fn no_verdict(
        rt: &impl Abort,
        settled: &Settlement,
        number: u8,
        layer: &str,
        place: usize,
    ) -> Result<(), Fail> {
        match settled.verdict {
            Some(verdict) => refused(rt, verdict, number, layer, place),
            None => Err(Fail::new("no verdict")),
        }
    }

    fn enter(station: usize, value: i64) -> Call<Load> {
        Call::Enter { station, value }
    }

    // x³, and the same load told once more from station 4 on as a step of 64.
    fn cube() -> Result<[Call<Load>; 4], Fail> {
        let mut polynomial = Polynomial::new();
        polynomial.set(&[0, 0, 0, 1])?;
        let step = StepTable::new(&[4], &[64])?;
        Ok([
            Call::Load(Either::First(polynomial)),
            Call::Load(Either::Second(step)),
            Call::Declare { tolerance: 1 },
            Call::Result,
        ])
    }

    // Readings of x³ entered one by one, that at station 2 as given.
    fn entered(middle: i64) -> [Call<Load>; 7] {
        [
            enter(0, 0),
            enter(1, 1),
            enter(2, middle),
            enter(3, 27),
            enter(4, 64),
            Call::Declare { tolerance: 1 },
            Call::Result,
        ]
    }

    // The trapezoid refined in two panels over x³, against Boole's rule over the entered readings.
    fn beam(
        middle: i64,
        ones: &mut [Reply; 4],
        others: &mut [Reply; 7],
    ) -> Result<Settlement, Fail> {
        let loads = cube()?;
        let entries = entered(middle);
        let one = Case {
            bottom: BuiltIn::Trapezoid,
            layers: &[Layer::Refinement, Layer::Panels(2)],
            calls: &loads,
        };
        let other = Case {
            bottom: BuiltIn::Boole,
            layers: &[],
            calls: &entries,
        };
        Ok(settle(one, ones, other, others))
    }

    #[test]
    fn one_load_meets(rt: HostRuntime) -> Result<(), Fail> {
        let mut ones = [GUARD; 4];
        let mut others = [GUARD; 7];
        let settled = beam(8, &mut ones, &mut others)?;
        done(&rt, &ones[0..3])?;
        told(&rt, ones[3], (384, 6), 24, 3)?;
        done(&rt, &others[0..6])?;
        told(&rt, others[6], (2880, 45), 180, 5)?;
        assert!(rt; !is_apart(&settled)?);
        Ok(())
    }

    // 40 in place of 8 at station 2: no number is within 1 of both.
    #[test]
    fn another_load_is_apart(rt: HostRuntime) -> Result<(), Fail> {
        let mut ones = [GUARD; 4];
        let mut others = [GUARD; 7];
        let settled = beam(40, &mut ones, &mut others)?;
        told(&rt, ones[3], (384, 6), 24, 3)?;
        told(&rt, others[6], (3648, 45), 180, 5)?;
        assert!(rt; is_apart(&settled)?);
        Ok(())
    }

    // Three readings over Simpson's rule.
    fn simpson(calls: &[Call<Load>]) -> Case<BuiltIn, Load> {
        Case {
            bottom: BuiltIn::Simpson,
            layers: &[],
            calls,
        }
    }

    #[test]
    fn one_place_too_few(rt: HostRuntime) -> Result<(), Fail> {
        let calls = [enter(0, 0), enter(1, 1), enter(2, 4)];
        let mut replies = [GUARD; 2];
        refused(&rt, replay(simpson(&calls), &mut replies), 23, "OUTPUT", 3)?;
        for reply in &replies {
            untouched(&rt, *reply)?;
        }
        Ok(())
    }

    #[test]
    fn a_refused_layer_spares_the_other(rt: HostRuntime) -> Result<(), Fail> {
        let calls = [enter(0, 0), enter(1, 1), enter(2, 4), Call::Result];
        let case = Case {
            bottom: BuiltIn::Simpson,
            layers: &[Layer::Mirror, Layer::Panels(0)],
            calls: &calls,
        };
        let mut ones = [GUARD; 4];
        let mut others = [GUARD; 4];
        let settled = settle(case, &mut ones, simpson(&calls), &mut others);
        assert!(rt; settled.second.is_ok());
        assert!(rt; settled.verdict.is_none());
        refused(&rt, settled.first, 6, "LAYER", 2)?;
        untouched(&rt, ones[0])?;
        told(&rt, others[3], (8, 3), 0, 3)
    }

    #[test]
    fn spans_that_differ(rt: HostRuntime) -> Result<(), Fail> {
        let calls = [enter(0, 0), enter(1, 1), enter(2, 4)];
        let case = Case {
            bottom: BuiltIn::Trapezoid,
            layers: &[],
            calls: &calls,
        };
        let mut ones = [GUARD; 3];
        let mut others = [GUARD; 3];
        let settled = settle(case, &mut ones, simpson(&calls), &mut others);
        refused(&rt, ones[2], 18, "RUN", 2)?;
        no_verdict(&rt, &settled, 22, "RUN", 0)
    }

    #[test]
    fn an_empty_station_of_the_other(rt: HostRuntime) -> Result<(), Fail> {
        let calls = [enter(0, 0), enter(1, 1), enter(2, 4)];
        let fewer = [enter(0, 0), enter(2, 4)];
        let mut ones = [GUARD; 3];
        let mut others = [GUARD; 2];
        let settled = settle(simpson(&calls), &mut ones, simpson(&fewer), &mut others);
        no_verdict(&rt, &settled, 21, "OTHER", 1)
    }
}
