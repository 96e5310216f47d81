// Edge cases of the sources, as tables.
#![tactic(auto)]

#[cfg(test)]
mod tests {
    use rules::Fault;
    use sources::{Either, Polynomial, Row, Source, StepTable, Survey};
    use std::test::Fail;

    // The number and the place of a refusal.
    fn refusal<T: Drop>(made: Result<T, Fault>) -> Option<(u8, usize)> {
        made.err().map(|fault| (fault.cause.number(), fault.place))
    }

    // The bytes of a survey that says it has `count` readings and has one.
    fn of_one(count: u16, tolerance: u32, station: u16, reading: i32) -> [u8; 12] {
        let n = count.to_be_bytes();
        let t = tolerance.to_be_bytes();
        let s = station.to_be_bytes();
        let r = reading.to_be_bytes();
        [
            n[0], n[1], t[0], t[1], t[2], t[3], s[0], s[1], r[0], r[1], r[2], r[3],
        ]
    }

    // The bytes of a survey of two readings and tolerance 3.
    fn of_two(stations: (u16, u16), readings: (i32, i32)) -> [u8; 18] {
        let s = stations.0.to_be_bytes();
        let t = stations.1.to_be_bytes();
        let q = readings.0.to_be_bytes();
        let r = readings.1.to_be_bytes();
        [
            0, 2, 0, 0, 0, 3, s[0], s[1], t[0], t[1], q[0], q[1], q[2], q[3], r[0], r[1], r[2],
            r[3],
        ]
    }

    #[test]
    fn surveys_of_one(rt: HostRuntime) {
        for (count, tolerance, station, reading, expected) in [
            (1, 0, 0, 0, None),
            (0, 0, 0, 0, Some((12, 0))),
            (2, 0, 0, 0, Some((14, 0))),
            (1025, 0, 0, 0, Some((14, 0))),
            (1026, 0, 0, 0, Some((12, 0))),
            (1, 1_048_576, 0, 0, None),
            (1, 1_048_577, 0, 0, Some((15, 0))),
            (1, u32::MAX, 1025, 0, Some((15, 0))),
            (1, 0, 1024, 0, None),
            (1, 0, 1025, i32::MIN, Some((13, 0))),
            (1, 0, 7, 1_048_576, None),
            (1, 0, 7, -1_048_576, None),
            (1, 0, 7, 1_048_577, Some((11, 0))),
            (1, 0, 7, -1_048_577, Some((11, 0))),
            (1, 0, 7, i32::MAX, Some((11, 0))),
            (1, 0, 7, i32::MIN, Some((11, 0))),
        ] {
            let bytes = of_one(count, tolerance, station, reading);
            assert_eq!(rt; refusal(Survey::read(&bytes)), expected);
        }
    }

    #[test]
    fn surveys_of_other_lengths(rt: HostRuntime) {
        let bytes = of_two((5, 7), (1, 2));
        for (length, expected) in [
            (0, Some((14, 0))),
            (5, Some((14, 0))),
            (6, Some((14, 0))),
            (17, Some((14, 0))),
            (18, None),
        ] {
            assert_eq!(rt; refusal(Survey::read(&bytes[0..length])), expected);
        }
        assert_eq!(rt; refusal(Survey::read(&[0; 6])), Some((12, 0)));
        assert_eq!(rt;
            refusal(Survey::read(&[0, 1, 0, 0, 0, 0, 0, 0, 0, 0, 0, 0, 0])),
            Some((14, 0))
        );
    }

    #[test]
    fn surveys_of_two(rt: HostRuntime) -> Result<(), Fail> {
        for (stations, readings, expected) in [
            ((5, 5), (0, 0), Some((13, 1))),
            ((5, 4), (i32::MIN, 0), Some((13, 1))),
            ((5, 1025), (0, 0), Some((13, 1))),
            ((5, 7), (0, 1_048_577), Some((11, 1))),
            ((5, 7), (-1_048_577, 1_048_577), Some((11, 0))),
        ] {
            let bytes = of_two(stations, readings);
            assert_eq!(rt; refusal(Survey::read(&bytes)), expected);
        }
        let bytes = of_two((0, 1024), (-1_048_576, 1_048_576));
        let survey = Survey::read(&bytes)?;
        assert_eq!(rt; survey.tolerance(), 3);
        for (station, expected) in [
            (0, Some(-1_048_576)),
            (1, None),
            (1024, Some(1_048_576)),
            (1025, None),
            (usize::MAX, None),
        ] {
            assert_eq!(rt; survey.reading(station), expected);
        }
        Ok(())
    }

    // The bytes of a survey in which every station has its own number as its reading.
    fn of_all() -> [u8; 6156] {
        let mut bytes = [0; 6156];
        bytes[0] = 4;
        bytes[1] = 1;
        // by index: tried `as_chunks_mut`, with which the proof of this test ran out of steps
        for index in 0..1025 {
            let [high, low] = (index as u16).to_be_bytes();
            bytes[6 + 2 * index] = high;
            bytes[7 + 2 * index] = low;
            bytes[2058 + 4 * index] = high;
            bytes[2059 + 4 * index] = low;
        }
        bytes
    }

    #[test]
    fn survey_of_all_stations(rt: HostRuntime) -> Result<(), Fail> {
        let survey = Survey::read(&of_all())?;
        assert_eq!(rt; survey.reading(0), Some(0));
        assert_eq!(rt; survey.reading(300), Some(300));
        assert_eq!(rt; survey.reading(1024), Some(1024));
        Ok(())
    }

    #[test]
    fn step_tables(rt: HostRuntime) -> Result<(), Fail> {
        assert_eq!(rt; refusal(StepTable::new(&[], &[])), Some((12, 0)));
        assert_eq!(rt; refusal(StepTable::new(&[0, 1], &[5])), Some((12, 0)));
        assert_eq!(rt;
            refusal(StepTable::new(&[0; 1026], &[0; 1026])),
            Some((12, 0))
        );
        assert_eq!(rt;
            refusal(StepTable::new(&[0; 1025], &[0; 1025])),
            Some((13, 1))
        );
        assert_eq!(rt;
            refusal(StepTable::new(&[3, 3], &[i64::MIN, 0])),
            Some((13, 1))
        );
        assert_eq!(rt; refusal(StepTable::new(&[1025], &[0])), Some((13, 0)));
        assert_eq!(rt;
            refusal(StepTable::new(&[3, 4], &[0, i64::MIN])),
            Some((11, 1))
        );
        let table = StepTable::new(&[3, 10, 1024], &[-1_048_576, 8, 1_048_576])?;
        assert_eq!(rt; table.tolerance(), 0);
        for (station, expected) in [
            (0, None),
            (2, None),
            (3, Some(-1_048_576)),
            (9, Some(-1_048_576)),
            (10, Some(8)),
            (1023, Some(8)),
            (1024, Some(1_048_576)),
            (1025, None),
        ] {
            assert_eq!(rt; table.reading(station), expected);
        }
        Ok(())
    }

    #[test]
    fn polynomials(rt: HostRuntime) {
        let mut polynomial = Polynomial::new();
        assert_eq!(rt; polynomial.reading(1024), Some(0));
        assert_eq!(rt; polynomial.reading(1025), None);
        assert_eq!(rt; refusal(polynomial.set(&[0, 0, 1])), None);
        assert_eq!(rt; polynomial.reading(1024), Some(1_048_576));
        assert_eq!(rt; refusal(polynomial.set(&[0; 13])), Some((10, 0)));
        assert_eq!(rt; refusal(polynomial.set(&[0, i64::MIN])), Some((11, 1)));
        assert_eq!(rt; polynomial.reading(1024), Some(1_048_576));
        assert_eq!(rt; refusal(polynomial.set(&[1, 0, 1])), None);
        assert_eq!(rt; polynomial.reading(1024), None);
        assert_eq!(rt; polynomial.reading(1023), Some(1_046_530));
        assert_eq!(rt; refusal(polynomial.set(&[-20, 1_048_576, 10])), None);
        assert_eq!(rt; polynomial.reading(0), Some(-20));
        assert_eq!(rt; polynomial.reading(1), Some(1_048_566));
        assert_eq!(rt; polynomial.reading(2), None);
        // a step of 2,097,152 comes back into the range
        assert_eq!(rt;
            refusal(polynomial.set(&[-1_048_576, -1_048_576, 1_048_576, 0])),
            None
        );
        assert_eq!(rt; polynomial.reading(2), Some(1_048_576));
        assert_eq!(rt; refusal(polynomial.set(&[1; 12])), None);
        assert_eq!(rt; polynomial.reading(1), Some(12));
        assert_eq!(rt; polynomial.reading(3), Some(265_720));
        assert_eq!(rt; refusal(polynomial.set(&[])), None);
        assert_eq!(rt; polynomial.reading(3), Some(0));
    }

    #[test]
    fn rows_and_mixtures(rt: HostRuntime) -> Result<(), Fail> {
        let mut row = Row::empty();
        row.put(1024, 7);
        row.put(1025, 8);
        row.put(0, 9);
        row.strike(0);
        row.strike(usize::MAX);
        assert_eq!(rt; row.reading(0), None);
        assert_eq!(rt; row.reading(1024), Some(7));
        assert_eq!(rt; row.reading(1025), None);
        let bytes = of_one(1, 4, 2, -6);
        let first: Either<Survey, Polynomial> = Either::First(Survey::read(&bytes)?);
        let second: Either<Survey, Polynomial> = Either::Second(Polynomial::new());
        assert_eq!(rt; first.reading(2), Some(-6));
        assert_eq!(rt; first.tolerance(), 4);
        assert_eq!(rt; second.reading(2), Some(0));
        assert_eq!(rt; second.tolerance(), 0);
        Ok(())
    }
}
