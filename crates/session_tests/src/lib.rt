// Examples of sessions: results, every refusal that a session can give, the largest figures, and buffers around the length of a line.
#![tactic(auto)]

#[cfg(test)]
mod tests {
    use report::{Written, write_refusal};
    use rules::Rule;
    use session::{Input, Order, answer, estimate, report};
    use std::alloc::Global;
    use std::process::Abort;
    use std::test::Fail;

    // What the tested buffers hold before a call, to see which bytes it touched.
    const GUARD: u8 = 0xA5;

    // The trapezoid refined once in two panels, and the cubes at the stations 0 to 4 with a tolerance of 1.
    const CUBES: [u8; 42] =
        *b"\x01\x01\x00\x01\x00\x02\x00\x05\x00\x00\x00\x01\x00\x00\x00\x01\x00\x02\x00\x03\x00\x04\x00\x00\x00\x00\x00\x00\x00\x01\x00\x00\x00\x08\x00\x00\x00\x1B\x00\x00\x00\x40";

    // The order of Simpson's rule.
    const SIMPSON: [u8; 6] = [2, 0, 0, 1, 0, 1];

    // Readings at the stations 0 to 32.
    const READINGS: [i32; 33] = [
        12, -7, 45, 3, -88, -250, 31, 6, -119, 74, -512, 9, -33, 808, -1, 0, 27, -64, 125, -216,
        343, -2, -700, 19, -5, 61, -940, 88, -17, 4, -300, 55, -13,
    ];

    // The line stands in front, and the rest of the buffer is as it was.
    // Other crates of tests have the like: a crate for a few lines would stand below them all.
    fn holds(rt: &impl Abort, out: &[u8], text: &str) {
        assert!(rt; text.len() <= out.len());
        assert_eq!(rt; &out[..text.len()], text.as_bytes());
        assert!(rt; out[text.len()..].iter().all(|byte| *byte == GUARD));
    }

    // No fault with a result, and with a refusal the fault that its line tells.
    fn tells(rt: &impl Abort, written: Written, text: &str) -> Result<(), Fail> {
        let Some(fault) = written.fault else {
            assert!(rt; !text.starts_with("REFUSED"));
            return Ok(());
        };
        let mut line = [GUARD; 40];
        write_refusal(&mut line, fault);
        holds(rt, &line, text);
        Ok(())
    }

    fn gives(rt: &impl Abort, order: &[u8], survey: &[u8], text: &str) -> Result<(), Fail> {
        let mut out = [GUARD; 96];
        let written = report(Input { order, survey }, &mut out);
        assert_eq!(rt; written.len, text.len());
        tells(rt, written, text)?;
        holds(rt, &out, text);
        Ok(())
    }

    // The lines of orders over one survey.
    fn all_give(rt: &impl Abort, survey: &[u8], cases: &[([u8; 6], &str)]) -> Result<(), Fail> {
        for (order, text) in cases {
            gives(rt, order, survey, text)?;
        }
        Ok(())
    }

    // The bytes of a survey.
    fn survey_of(
        heap: Global,
        count: u16,
        tolerance: u32,
        stations: &[u16],
        readings: &[i32],
    ) -> Result<Vec<u8>, Fail> {
        let mut bytes = Vec::new(heap);
        bytes.extend_from_slice(&count.to_be_bytes())?;
        bytes.extend_from_slice(&tolerance.to_be_bytes())?;
        for station in stations {
            bytes.extend_from_slice(&station.to_be_bytes())?;
        }
        for reading in readings {
            bytes.extend_from_slice(&reading.to_be_bytes())?;
        }
        Ok(bytes)
    }

    // A survey of the stations from 0 on, one for each reading.
    fn full_survey(
        rt: &impl Abort,
        heap: Global,
        tolerance: u32,
        readings: &[i32],
    ) -> Result<Vec<u8>, Fail> {
        assert!(rt; readings.len() <= 1025);
        let count = readings.len() as u16;
        let stations: Vec<u16> = (0..count).collect(heap)?;
        survey_of(heap, count, tolerance, stations.as_slice(), readings)
    }

    // Every base, with refinements, stretches and panels, over the same readings with a tolerance of 3.
    #[test]
    fn results(rt: HostRuntime) -> Result<(), Fail> {
        let survey = full_survey(&rt, rt.alloc(), 3, &READINGS)?;
        let cases = [
            ([1, 0, 0, 1, 0, 1], "5 2 1 6\n"),
            ([1, 0, 0, 3, 0, 4], "585 2 1 72\n"),
            ([1, 0, 0, 4, 0, 3], "-1740 2 1 72\n"),
            (
                [1, 5, 0, 1, 0, 1],
                "-254370528160 1479104550 11 141994036800\n",
            ),
            ([2, 0, 0, 1, 0, 16], "-1937 3 3 288\n"),
            ([2, 3, 0, 2, 0, 1], "-4665016880 722925 9 69400800\n"),
            ([3, 1, 0, 1, 0, 5], "-180468 120 5 10800\n"),
            ([4, 2, 0, 2, 0, 1], "-4665016880 722925 9 69400800\n"),
            ([5, 0, 0, 6, 0, 1], "32340 288 5 25920\n"),
            ([6, 1, 0, 2, 0, 1], "-106607116 35700 9 2570400\n"),
            ([7, 1, 0, 1, 0, 2], "-2623146638 4406400 9 370137600\n"),
            ([8, 0, 0, 1, 0, 1], "-9500924 14175 9 493704\n"),
            ([8, 1, 0, 1, 0, 2], "26699995768 14501025 11 2023818336\n"),
            ([8, 0, 0, 2, 0, 2], "-180865656 14175 9 1974816\n"),
            ([9, 0, 0, 1, 0, 5], "-348 1 1 30\n"),
            ([9, 1, 0, 1, 0, 1], "-212 3 3 60\n"),
            ([9, 3, 0, 1, 0, 2], "17063392 2835 7 530400\n"),
            ([10, 0, 0, 1, 0, 3], "50 1 0 9\n"),
            ([10, 2, 0, 2, 0, 3], "-17968 3 2 360\n"),
            ([10, 5, 0, 1, 0, 1], "90405728 9765 5 2423520\n"),
        ];
        all_give(&rt, survey.as_slice(), &cases)
    }

    // A station of weight 0 needs no reading.
    #[test]
    fn weight_zero(rt: HostRuntime) -> Result<(), Fail> {
        let survey = survey_of(rt.alloc(), 3, 2, &[1, 2, 3], &[-5, 7, -11])?;
        gives(&rt, &[9, 1, 0, 1, 0, 1], survey.as_slice(), "-156 3 3 40\n")
    }

    // Orders of a wrong length, and surveys that are too short for a count.
    #[test]
    fn refused_lengths(rt: HostRuntime) -> Result<(), Fail> {
        gives(&rt, &[], &[], "REFUSED 14 ORDER 0\n")?;
        gives(&rt, &[0, 6, 0, 0, 0], &[], "REFUSED 14 ORDER 0\n")?;
        gives(&rt, &[1, 1, 0, 1, 0, 2, 0], &[], "REFUSED 14 ORDER 0\n")?;
        gives(&rt, &SIMPSON, &[], "REFUSED 14 SOURCE 0\n")?;
        gives(&rt, &SIMPSON, &[0, 0, 0, 0, 0], "REFUSED 14 SOURCE 0\n")?;
        gives(
            &rt,
            &SIMPSON,
            &[0, 0, 255, 0, 0, 0],
            "REFUSED 12 SOURCE 0\n",
        )
    }

    // An order is refused before its survey is read, and a layer before those above it.
    #[test]
    fn refused_orders(rt: HostRuntime) -> Result<(), Fail> {
        let cases = [
            ([0, 0, 0, 1, 0, 1], "REFUSED 24 ORDER 0\n"),
            ([11, 0, 0, 1, 0, 1], "REFUSED 24 ORDER 0\n"),
            ([255, 6, 0, 0, 0, 0], "REFUSED 24 ORDER 0\n"),
            ([1, 6, 0, 1, 0, 1], "REFUSED 24 ORDER 1\n"),
            ([10, 255, 0, 0, 0, 0], "REFUSED 24 ORDER 1\n"),
            ([1, 0, 0, 0, 0, 1], "REFUSED 6 LAYER 1\n"),
            ([1, 5, 0, 0, 0, 0], "REFUSED 6 LAYER 6\n"),
            ([1, 0, 0, 1, 0, 0], "REFUSED 6 LAYER 2\n"),
            ([3, 4, 0, 1, 0, 0], "REFUSED 6 LAYER 6\n"),
            ([1, 0, 4, 1, 0, 0], "REFUSED 7 LAYER 1\n"),
            ([1, 0, 255, 255, 0, 1], "REFUSED 7 LAYER 1\n"),
            ([1, 0, 0, 1, 4, 1], "REFUSED 7 LAYER 2\n"),
            ([8, 1, 0, 2, 0, 33], "REFUSED 7 LAYER 3\n"),
            ([10, 5, 0, 32, 255, 255], "REFUSED 7 LAYER 7\n"),
            ([8, 2, 0, 1, 0, 1], "REFUSED 8 LAYER 2\n"),
            ([8, 5, 0, 0, 0, 0], "REFUSED 8 LAYER 2\n"),
            ([2, 5, 0, 1, 0, 1], "REFUSED 8 LAYER 5\n"),
            ([7, 2, 0, 1, 0, 1], "REFUSED 9 LAYER 2\n"),
            ([5, 4, 0, 1, 0, 1], "REFUSED 9 LAYER 3\n"),
            ([1, 5, 0, 12, 0, 1], "REFUSED 9 LAYER 6\n"),
            ([1, 5, 0, 1, 0, 12], "REFUSED 9 LAYER 7\n"),
        ];
        all_give(&rt, &[], &cases)
    }

    // Count, tolerance, stations and readings of a survey, and its refusal.
    type SurveyCase = (u16, u32, [u16; 3], [i32; 3], &'static str);

    fn all_surveys_refused(
        rt: &impl Abort,
        heap: Global,
        cases: &[SurveyCase],
    ) -> Result<(), Fail> {
        for (count, tolerance, stations, readings, text) in cases {
            let survey = survey_of(heap, *count, *tolerance, stations, readings)?;
            gives(rt, &SIMPSON, survey.as_slice(), text)?;
        }
        Ok(())
    }

    // Each check of a survey comes before the next, and all before the readings that are missed.
    #[test]
    fn refused_surveys(rt: HostRuntime) -> Result<(), Fail> {
        let cases = [
            (0, 0, [0, 1, 2], [0, 1, 4], "REFUSED 12 SOURCE 0\n"),
            (1026, 1048577, [0, 0, 0], [0, 1, 4], "REFUSED 12 SOURCE 0\n"),
            (2, 1048577, [0, 0, 0], [0, 1, 4], "REFUSED 14 SOURCE 0\n"),
            (4, 0, [0, 1, 2], [0, 1, 4], "REFUSED 14 SOURCE 0\n"),
            (
                3,
                1048577,
                [0, 0, 0],
                [i32::MAX, 1, 4],
                "REFUSED 15 SOURCE 0\n",
            ),
            (3, u32::MAX, [0, 1, 2], [0, 1, 4], "REFUSED 15 SOURCE 0\n"),
            (3, 1048576, [1025, 0, 0], [0, 1, 4], "REFUSED 13 SOURCE 0\n"),
            (3, 0, [0, 0, 0], [i32::MAX, 1, 4], "REFUSED 13 SOURCE 1\n"),
            (3, 0, [0, 2, 1], [0, 1, 4], "REFUSED 13 SOURCE 2\n"),
            (3, 0, [0, 1, u16::MAX], [0, 1, 4], "REFUSED 13 SOURCE 2\n"),
            (3, 0, [1, 2, 3], [i32::MIN, 1, 4], "REFUSED 11 SOURCE 0\n"),
            (
                3,
                0,
                [0, 1, 2],
                [0, 1048577, i32::MAX],
                "REFUSED 11 SOURCE 1\n",
            ),
            (
                3,
                0,
                [0, 1, 2],
                [1048576, -1048576, -1048577],
                "REFUSED 11 SOURCE 2\n",
            ),
            (3, 0, [1, 2, 3], [0, 1, 4], "REFUSED 21 RUN 0\n"),
            (3, 0, [0, 3, 4], [0, 1, 4], "REFUSED 21 RUN 1\n"),
            (3, 0, [0, 1, 1024], [0, 1, 4], "REFUSED 21 RUN 2\n"),
        ];
        all_surveys_refused(&rt, rt.alloc(), &cases)
    }

    // Readings that rise to the greatest at the last station.
    fn slope(heap: Global) -> Result<Vec<i32>, Fail> {
        let stations = 0..1025_u16;
        Ok(
            stations
                .map(|station| 1024 * i32::from(station))
                .collect(heap)?,
        )
    }

    // The longest survey, with the greatest tolerance.
    #[test]
    fn longest_survey(rt: HostRuntime) -> Result<(), Fail> {
        let readings = slope(rt.alloc())?;
        let survey = full_survey(&rt, rt.alloc(), 1048576, readings.as_slice())?;
        let cases = [
            ([1, 0, 0, 1, 4, 0], "1073741824 2 1 2147483648\n"),
            ([1, 0, 4, 0, 0, 1], "1073741824 2 1 2147483648\n"),
            ([10, 0, 0, 1, 4, 0], "536346624 1 0 1073741824\n"),
            (
                [8, 1, 0, 1, 0, 64],
                "7785178516684800 14501025 11 22636024911888384\n",
            ),
            (
                [2, 4, 0, 1, 0, 32],
                "397044104350924800 739552275 11 794088208701849600\n",
            ),
        ];
        all_give(&rt, survey.as_slice(), &cases)
    }

    // Orders whose value, denominator or radius is the largest, over the least readings with the greatest tolerance.
    #[test]
    fn largest_figures(rt: HostRuntime) -> Result<(), Fail> {
        let readings = vec![in rt.alloc(); -1048576; 1025]?;
        let survey = full_survey(&rt, rt.alloc(), 1048576, readings.as_slice())?;
        let cases = [
            (
                [1, 5, 0, 1, 0, 11],
                "-545935643482521600 1479104550 11 545935643482521600\n",
            ),
            (
                [3, 4, 0, 1, 0, 9],
                "-893349234789580800 1972139400 11 893349234789580800\n",
            ),
            (
                [9, 5, 0, 1, 0, 11],
                "-545935643482521600 739552275 11 1074389718138880000\n",
            ),
        ];
        all_give(&rt, survey.as_slice(), &cases)
    }

    // The answer to the input in the first `room` bytes.
    fn answer_within(rt: &impl Abort, input: &[u8], out: &mut [u8], room: usize) -> Written {
        assert!(rt; room <= out.len());
        answer(input, &mut out[0..room])
    }

    // A line that needs more than `room` bytes leaves the buffer as it was.
    fn does_not_fit(rt: &impl Abort, input: &[u8], room: usize, text: &str) -> Result<(), Fail> {
        let mut out = [GUARD; 30];
        let written = answer_within(rt, input, &mut out, room);
        assert_eq!(rt; written.len, 0);
        tells(rt, written, text)?;
        holds(rt, &out, "");
        Ok(())
    }

    // The result needs 11 bytes, and the refusal 19: every smaller number is a case.
    #[test]
    fn buffers_too_short(rt: HostRuntime) -> Result<(), Fail> {
        for room in 0..11 {
            does_not_fit(&rt, &CUBES, room, "REFUSED 23 OUTPUT 11\n")?;
        }
        for room in 0..19 {
            does_not_fit(&rt, &[], room, "REFUSED 23 OUTPUT 19\n")?;
        }
        Ok(())
    }

    fn fits(rt: &impl Abort, input: &[u8], room: usize, text: &str) {
        let mut out = [GUARD; 60];
        assert_eq!(rt; answer_within(rt, input, &mut out, room).len, text.len());
        holds(rt, &out, text);
    }

    #[test]
    fn buffers_long_enough(rt: HostRuntime) {
        fits(&rt, &CUBES, 11, "384 6 3 24\n");
        fits(&rt, &CUBES, 12, "384 6 3 24\n");
        fits(&rt, &[], 19, "REFUSED 14 ORDER 0\n");
        fits(&rt, &[], 60, "REFUSED 14 ORDER 0\n");
    }

    // The cubes, and what becomes of them without the station 3.
    #[test]
    fn cubes(rt: HostRuntime) -> Result<(), Fail> {
        gives(&rt, &CUBES[..6], &CUBES[6..], "384 6 3 24\n")?;
        let survey = survey_of(rt.alloc(), 4, 1, &[0, 1, 2, 4], &[0, 1, 8, 64])?;
        gives(&rt, &CUBES[..6], survey.as_slice(), "REFUSED 21 RUN 3\n")
    }

    #[test]
    fn estimate_of_cubes(rt: HostRuntime) -> Result<(), Fail> {
        let estimate = estimate(Input {
            order: &CUBES[..6],
            survey: &CUBES[6..],
        })?;
        assert_eq!(rt; estimate.value, (384, 6));
        assert_eq!(rt; estimate.degree, 3);
        assert_eq!(rt; estimate.radius, 24);
        Ok(())
    }

    // The trapezoid refined twice.
    #[test]
    fn pile(rt: HostRuntime) -> Result<(), Fail> {
        let pile = Order::read(&[1, 2, 0, 1, 0, 1])?.pile()?;
        assert_eq!(rt; pile.span(), 4);
        assert_eq!(rt; pile.denominator(), 90);
        assert_eq!(rt; pile.degree(), 5);
        for (station, weight) in [28, 128, 48, 128, 28, 0].iter().enumerate() {
            assert_eq!(rt; pile.weight(station), *weight);
        }
        Ok(())
    }

    #[test]
    fn short_inputs(rt: HostRuntime) {
        fits(&rt, &CUBES[0..1], 60, "REFUSED 14 ORDER 0\n");
        fits(&rt, &CUBES[0..5], 60, "REFUSED 14 ORDER 0\n");
        fits(&rt, &CUBES[0..6], 60, "REFUSED 14 SOURCE 0\n");
        fits(&rt, &CUBES[0..41], 60, "REFUSED 14 SOURCE 0\n");
    }

    // The longest input, of 6,162 bytes, and one byte more.
    #[test]
    fn longest_input(rt: HostRuntime) -> Result<(), Fail> {
        let readings = slope(rt.alloc())?;
        let survey = full_survey(&rt, rt.alloc(), 0, readings.as_slice())?;
        let mut input = [1, 0, 0, 1, 4, 0].to_vec(rt.alloc())?;
        input.extend_from_slice(survey.as_slice())?;
        assert_eq!(rt; input.len(), 6162);
        fits(&rt, input.as_slice(), 60, "1073741824 2 1 0\n");
        input.push(0)?;
        fits(&rt, input.as_slice(), 60, "REFUSED 14 SOURCE 0\n");
        Ok(())
    }
}
