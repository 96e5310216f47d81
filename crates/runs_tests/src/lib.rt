// Results and verdicts at their edges, and every refusal of a run. The expected figures are computed by hand from the weights.
#![tactic(auto)]

#[cfg(test)]
mod tests {
    use layers::refine;
    use rules::{BuiltIn, Fault, Rule};
    use runs::{Estimate, Run, Verdict, total};
    use sources::Polynomial;
    use std::process::Abort;
    use std::test::Fail;

    // A run with the readings entered at the stations 0, 1, .. and a tolerance declared.
    fn run_over<R: Rule + Drop>(rule: R, readings: &[i64], tolerance: u64) -> Result<Run<R>, Fail> {
        let mut run = Run::new(rule);
        for (station, value) in readings.iter().enumerate() {
            run.enter(station, *value)?;
        }
        run.declare(tolerance)?;
        Ok(run)
    }

    // A refusal is compared by its number and name, since a report prints these.
    // Other crates of tests have the like: a crate for a few lines would stand below them all.
    fn refused<T: Drop>(
        rt: &impl Abort,
        reply: Result<T, Fault>,
        number: u8,
        layer: &str,
        place: usize,
    ) -> Result<(), Fail> {
        let Err(fault) = reply else {
            return Err(Fail::new("not refused"));
        };
        assert_eq!(rt; fault.cause.number(), number);
        assert_eq!(rt; fault.layer.name(), layer);
        assert_eq!(rt; fault.place, place);
        Ok(())
    }

    fn tells(
        rt: &impl Abort,
        reply: Result<Estimate, Fault>,
        value: (i64, u64),
        radius: i64,
        degree: usize,
    ) -> Result<(), Fail> {
        let told = Estimate {
            value,
            radius,
            degree,
        };
        assert_eq!(rt; reply?, told);
        Ok(())
    }

    #[test]
    fn negative_weights(rt: HostRuntime) -> Result<(), Fail> {
        let nine = run_over(BuiltIn::NinePoint, &[3, -1, 4, 1, -5, 9, -2, 6, -5], 7)?;
        tells(&rt, nine.result(), (613064, 14175), 1151976, 9)?;
        // the weights 0, 8, -4, 8, 0 over 3
        let refined = refine(BuiltIn::Midpoint)?;
        let five = run_over(refined, &[0, 5, 7, -2, 0], 3)?;
        tells(&rt, five.result(), (-4, 3), 60, 3)
    }

    #[test]
    fn stations_of_weight_zero_may_be_empty(rt: HostRuntime) -> Result<(), Fail> {
        let mut run = Run::new(BuiltIn::Midpoint);
        run.enter(1, -6)?;
        tells(&rt, run.result(), (-12, 1), 0, 1)?;
        run.publish()?;
        tells(&rt, run.result(), (-12, 1), 0, 1)
    }

    #[test]
    fn largest_numerators(rt: HostRuntime) -> Result<(), Fail> {
        let high = run_over(
            BuiltIn::NinePoint,
            &[
                1048576, 1048576, -1048576, 1048576, -1048576, 1048576, -1048576, 1048576, 1048576,
            ],
            1048576,
        )?;
        tells(&rt, high.result(), (172562055168, 14175), 172562055168, 9)?;
        let low = run_over(
            BuiltIn::NinePoint,
            &[
                -1048576, -1048576, 1048576, -1048576, 1048576, -1048576, 1048576, -1048576,
                -1048576,
            ],
            1048576,
        )?;
        // the bands share 0 alone
        assert_eq!(rt; is_apart(high.verdict(&low))?, false);
        Ok(())
    }

    fn is_apart(reply: Result<Verdict, Fault>) -> Result<bool, Fail> {
        Ok(reply? == Verdict::Apart)
    }

    // Two trapezoids, each with two readings and a tolerance: the band is (a + b)/2 within the tolerance.
    struct Pair {
        first: [i64; 2],
        first_tolerance: u64,
        second: [i64; 2],
        second_tolerance: u64,
        apart: bool,
    }

    const PAIRS: [Pair; 10] = [
        // equal values, and bands that are one number each
        Pair {
            first: [-2, 0],
            first_tolerance: 0,
            second: [-1, -1],
            second_tolerance: 0,
            apart: false,
        },
        // equal bands
        Pair {
            first: [0, 2],
            first_tolerance: 3,
            second: [1, 1],
            second_tolerance: 3,
            apart: false,
        },
        // 1/2 and 1: the whole parts differ
        Pair {
            first: [0, 1],
            first_tolerance: 0,
            second: [1, 1],
            second_tolerance: 0,
            apart: true,
        },
        // 1/2 and 0: the whole parts are equal
        Pair {
            first: [0, 1],
            first_tolerance: 0,
            second: [0, 0],
            second_tolerance: 0,
            apart: true,
        },
        // -1/2 and 0: rounding towards zero would make the whole parts equal
        Pair {
            first: [-1, 0],
            first_tolerance: 0,
            second: [0, 0],
            second_tolerance: 0,
            apart: true,
        },
        // -1/2 and -1, whose whole parts are equal
        Pair {
            first: [-1, 0],
            first_tolerance: 0,
            second: [-1, -1],
            second_tolerance: 0,
            apart: true,
        },
        // -5/2, and the band from -5/2 to -1/2: they touch
        Pair {
            first: [-4, -1],
            first_tolerance: 0,
            second: [-2, -1],
            second_tolerance: 1,
            apart: false,
        },
        // -5/2, and the band from -2 to 0
        Pair {
            first: [-4, -1],
            first_tolerance: 0,
            second: [-2, 0],
            second_tolerance: 1,
            apart: true,
        },
        // one band inside the other
        Pair {
            first: [0, 0],
            first_tolerance: 9,
            second: [1, 2],
            second_tolerance: 1,
            apart: false,
        },
        // the ends of the range
        Pair {
            first: [1048576, 1048576],
            first_tolerance: 1048576,
            second: [-1048576, -1048576],
            second_tolerance: 1048576,
            apart: false,
        },
    ];

    // Judged both ways round.
    fn judged(rt: &impl Abort, pair: &Pair) -> Result<(), Fail> {
        let first = run_over(BuiltIn::Trapezoid, &pair.first, pair.first_tolerance)?;
        let second = run_over(BuiltIn::Trapezoid, &pair.second, pair.second_tolerance)?;
        assert_eq!(rt; is_apart(first.verdict(&second))?, pair.apart);
        assert_eq!(rt; is_apart(second.verdict(&first))?, pair.apart);
        Ok(())
    }

    #[test]
    fn verdicts_at_the_edges(rt: HostRuntime) -> Result<(), Fail> {
        for pair in &PAIRS {
            judged(&rt, pair)?;
        }
        Ok(())
    }

    #[test]
    fn verdicts_that_are_refused(rt: HostRuntime) -> Result<(), Fail> {
        let whole = run_over(BuiltIn::Simpson, &[1, 2, 3], 0)?;
        let lacking = run_over(BuiltIn::Simpson, &[1], 0)?;
        let longer = Run::new(BuiltIn::ThreeEighths);
        refused(&rt, lacking.verdict(&longer), 22, "RUN", 0)?;
        refused(&rt, lacking.verdict(&lacking), 21, "RUN", 1)?;
        refused(&rt, whole.verdict(&lacking), 21, "OTHER", 1)
    }

    #[test]
    fn refusals_in_their_order(rt: HostRuntime) -> Result<(), Fail> {
        let mut run = Run::new(BuiltIn::Simpson);
        refused(&rt, run.enter(3, 1048577), 18, "RUN", 3)?;
        refused(&rt, run.enter(usize::MAX, 0), 18, "RUN", usize::MAX)?;
        refused(&rt, run.enter(2, 1048577), 11, "RUN", 2)?;
        refused(&rt, run.enter(2, i64::MIN), 11, "RUN", 2)?;
        refused(&rt, run.strike(3), 18, "RUN", 3)?;
        refused(&rt, run.strike(2), 20, "RUN", 2)?;
        refused(&rt, run.declare(1048577), 15, "RUN", 0)?;
        refused(&rt, run.publish(), 21, "RUN", 0)?;
        run.declare(1048576)?;
        run.enter(0, -1048576)?;
        run.enter(1, 1048576)?;
        refused(&rt, run.publish(), 21, "RUN", 2)?;
        run.enter(2, 5)?;
        run.strike(2)?;
        refused(&rt, run.publish(), 21, "RUN", 2)?;
        run.enter(2, -1048576)?;
        run.publish()?;
        refused(&rt, run.enter(9, 1048577), 19, "RUN", 0)?;
        refused(&rt, run.strike(9), 19, "RUN", 0)?;
        refused(&rt, run.declare(1048577), 19, "RUN", 0)?;
        refused(&rt, run.load(&Polynomial::new()), 19, "RUN", 0)?;
        refused(&rt, run.publish(), 19, "RUN", 0)?;
        tells(&rt, run.result(), (2097152, 3), 6291456, 3)
    }

    #[test]
    fn totals_without_a_run(rt: HostRuntime) -> Result<(), Fail> {
        let mut square = Polynomial::new();
        square.set(&[0, 0, 1])?;
        let sum = total(&BuiltIn::Boole, &square)?;
        assert_eq!(rt; sum.value, (960, 45));
        assert_eq!(rt; sum.radius, 0);
        // 1,048,576 at station 1, and no reading from station 2 on
        square.set(&[0, 1048576])?;
        refused(&rt, total(&BuiltIn::Boole, &square), 21, "RUN", 2)
    }
}
