// The calls for C and Rust on examples: lines, numbers, weights, replies and verdicts, buffers around the length needed, and refusals.
#![tactic(auto)]

#[cfg(test)]
mod tests {
    use battenlime::{
        CallRecord, EstimateRecord, RefusalRecord, battenlime_answer, battenlime_integrate,
        battenlime_replay, battenlime_report, battenlime_settle, battenlime_weights,
    };
    use std::process::Abort;

    // What the tested buffers hold before a call, to see which places it touched.
    const GUARD: u8 = 0xA5;

    const UNTOUCHED: i64 = -7;

    // The trapezoid refined once in two panels, and the cubes at the stations 0 to 4 with a tolerance of 1.
    const CUBES: [u8; 42] =
        *b"\x01\x01\x00\x01\x00\x02\x00\x05\x00\x00\x00\x01\x00\x00\x00\x01\x00\x02\x00\x03\x00\x04\x00\x00\x00\x00\x00\x00\x00\x01\x00\x00\x00\x08\x00\x00\x00\x1B\x00\x00\x00\x40";

    // The trapezoid in two panels, Simpson's rule, and the readings 0, 1, 4 at the stations 0 to 2 with the tolerance 0 or 1.
    const TRAPEZOIDS: [u8; 6] = [1, 0, 0, 1, 0, 2];

    const SIMPSON: [u8; 6] = [2, 0, 0, 1, 0, 1];

    const SQUARES: [u8; 24] =
        *b"\x00\x03\x00\x00\x00\x00\x00\x00\x00\x01\x00\x02\x00\x00\x00\x00\x00\x00\x00\x01\x00\x00\x00\x04";

    const NEAR_SQUARES: [u8; 24] =
        *b"\x00\x03\x00\x00\x00\x01\x00\x00\x00\x01\x00\x02\x00\x00\x00\x00\x00\x00\x00\x01\x00\x00\x00\x04";
    // The same without station 2.
    const TWO_SQUARES: [u8; 18] =
        *b"\x00\x02\x00\x00\x00\x00\x00\x00\x00\x01\x00\x00\x00\x00\x00\x00\x00\x01";

    // Other crates of tests have the like: a crate for a few lines would stand below them all.
    fn refused(rt: &impl Abort, record: RefusalRecord, number: u32, layer: u32, place: usize) {
        let told = RefusalRecord {
            number,
            layer,
            place,
        };
        assert_eq!(rt; record, told);
    }

    fn accepted(rt: &impl Abort, record: RefusalRecord) {
        refused(rt, record, 0, 0, 0);
    }

    // The text stands in front, and the rest of the buffer is as it was.
    fn holds(rt: &impl Abort, out: &[u8], len: usize, text: &[u8]) {
        assert_eq!(rt; len, text.len());
        assert!(rt; text.len() <= out.len());
        let (line, rest) = out.split_at(text.len());
        assert_eq!(rt; line, text);
        assert!(rt; rest.iter().all(|byte| *byte == GUARD));
    }

    fn tells(
        rt: &impl Abort,
        record: EstimateRecord,
        numerator: i64,
        denominator: u64,
        radius: i64,
        degree: usize,
    ) {
        assert_eq!(rt; record.numerator, numerator);
        assert_eq!(rt; record.denominator, denominator);
        assert_eq!(rt; record.radius, radius);
        assert_eq!(rt; record.degree, degree);
    }

    #[test]
    fn a_report_and_the_buffers_around_its_length(rt: HostRuntime) {
        let mut out = [GUARD; 20];
        let line = battenlime_report(&CUBES[..6], &CUBES[6..], &mut out);
        accepted(&rt, line.refusal);
        holds(&rt, &out, line.len, b"384 6 3 24\n");
        let mut out = [GUARD; 11];
        let line = battenlime_answer(&CUBES, &mut out);
        accepted(&rt, line.refusal);
        holds(&rt, &out, line.len, b"384 6 3 24\n");
        let mut out = [GUARD; 10];
        let line = battenlime_answer(&CUBES, &mut out);
        refused(&rt, line.refusal, 23, 7, 11);
        holds(&rt, &out, line.len, b"");
        let line = battenlime_report(&CUBES[..6], &CUBES[6..], &mut []);
        refused(&rt, line.refusal, 23, 7, 11);
        assert_eq!(rt; line.len, 0);
    }

    #[test]
    fn refused_reports(rt: HostRuntime) {
        let mut out = [GUARD; 24];
        let line = battenlime_answer(&CUBES[..5], &mut out);
        refused(&rt, line.refusal, 14, 6, 0);
        holds(&rt, &out, line.len, b"REFUSED 14 ORDER 0\n");
        let mut out = [GUARD; 24];
        let line = battenlime_report(&[1, 0, 0, 1, 0, 0], &CUBES[6..], &mut out);
        refused(&rt, line.refusal, 6, 2, 2);
        holds(&rt, &out, line.len, b"REFUSED 6 LAYER 2\n");
        let mut out = [GUARD; 18];
        let line = battenlime_report(&[1, 0, 0, 1, 0, 1], &CUBES[6..41], &mut out);
        refused(&rt, line.refusal, 23, 7, 20);
        holds(&rt, &out, line.len, b"");
    }

    #[test]
    fn results_as_numbers(rt: HostRuntime) {
        let result = battenlime_integrate(&CUBES[..6], &CUBES[6..]);
        accepted(&rt, result.refusal);
        tells(&rt, result, 384, 6, 24, 3);
        let lacking = battenlime_integrate(&TRAPEZOIDS, &TWO_SQUARES);
        refused(&rt, lacking.refusal, 21, 4, 2);
        tells(&rt, lacking, 0, 0, 0, 0);
        let unread = battenlime_integrate(&SIMPSON, &[]);
        refused(&rt, unread.refusal, 14, 3, 0);
        tells(&rt, unread, 0, 0, 0, 0);
    }

    #[test]
    fn weights_and_the_buffers_around_their_number(rt: HostRuntime) {
        let mut weights = [UNTOUCHED; 7];
        let rule = battenlime_weights(&CUBES[..6], &mut weights);
        accepted(&rt, rule.refusal);
        assert_eq!(rt; rule.span, 4);
        assert_eq!(rt; rule.denominator, 6);
        assert_eq!(rt; rule.degree, 3);
        assert_eq!(rt; rule.ceiling, 40);
        assert_eq!(rt; rule.symmetric, 1);
        assert_eq!(rt; weights, [2, 8, 4, 8, 2, UNTOUCHED, UNTOUCHED]);
        let mut exact = [UNTOUCHED; 2];
        let rule = battenlime_weights(&[10, 0, 0, 1, 0, 1], &mut exact);
        accepted(&rt, rule.refusal);
        assert_eq!(rt; rule.symmetric, 0);
        assert_eq!(rt; exact, [1, 0]);
        let mut short = [UNTOUCHED; 4];
        let rule = battenlime_weights(&CUBES[..6], &mut short);
        refused(&rt, rule.refusal, 23, 7, 5);
        assert_eq!(rt; rule.span, 0);
        assert_eq!(rt; rule.denominator, 0);
        assert_eq!(rt; short, [UNTOUCHED; 4]);
        refused(
            &rt,
            battenlime_weights(&[11, 0, 0, 1, 0, 1], &mut short).refusal,
            24,
            6,
            0,
        );
        refused(
            &rt,
            battenlime_weights(&[1, 5, 0, 1, 0, 12], &mut []).refusal,
            9,
            2,
            7,
        );
    }

    const ASK: CallRecord = CallRecord {
        kind: 5,
        station: 0,
        value: 0,
        tolerance: 0,
    };

    const UNANSWERED: EstimateRecord = EstimateRecord {
        numerator: UNTOUCHED,
        denominator: 9,
        radius: 9,
        degree: 9,
        refusal: RefusalRecord {
            number: 9,
            layer: 9,
            place: 9,
        },
    };

    fn call(kind: u32, station: usize, value: i64, tolerance: u64) -> CallRecord {
        CallRecord {
            kind,
            station,
            value,
            tolerance,
        }
    }

    #[test]
    fn calls_and_their_replies(rt: HostRuntime) {
        let calls = [
            call(2, 3, 0, 0),
            ASK,
            call(1, 3, 26, 0),
            call(3, 0, 0, 2),
            call(77, 0, 0, 0),
            call(1, 5, 0, 0),
            call(1, 4, 1_048_577, 0),
            call(3, 0, 0, u64::MAX),
            call(4, 0, 0, 0),
            call(2, 0, 0, 0),
        ];
        let mut replies = [UNANSWERED; 11];
        accepted(
            &rt,
            battenlime_replay(&CUBES[..6], &CUBES[6..], &calls, &mut replies),
        );
        accepted(&rt, replies[0].refusal);
        tells(&rt, replies[0], 0, 0, 0, 0);
        refused(&rt, replies[1].refusal, 21, 4, 3);
        accepted(&rt, replies[2].refusal);
        accepted(&rt, replies[3].refusal);
        tells(&rt, replies[4], 376, 6, 48, 3);
        refused(&rt, replies[5].refusal, 18, 4, 5);
        refused(&rt, replies[6].refusal, 11, 4, 4);
        refused(&rt, replies[7].refusal, 15, 4, 0);
        accepted(&rt, replies[8].refusal);
        refused(&rt, replies[9].refusal, 19, 4, 0);
        assert_eq!(rt; replies[10], UNANSWERED);
    }

    #[test]
    fn lists_that_are_refused(rt: HostRuntime) {
        let mut replies = [UNANSWERED; 1];
        refused(
            &rt,
            battenlime_replay(&CUBES[..6], &CUBES[6..], &[ASK, ASK], &mut replies),
            23,
            7,
            2,
        );
        assert_eq!(rt; replies[0], UNANSWERED);
        refused(
            &rt,
            battenlime_replay(&CUBES[..5], &CUBES[6..], &[ASK], &mut replies),
            14,
            6,
            0,
        );
        refused(
            &rt,
            battenlime_replay(&CUBES[..6], &CUBES[6..41], &[ASK], &mut replies),
            14,
            3,
            0,
        );
        assert_eq!(rt; replies[0], UNANSWERED);
        accepted(
            &rt,
            battenlime_replay(&CUBES[..6], &CUBES[6..], &[], &mut []),
        );
    }

    fn settled(
        rt: &impl Abort,
        first_order: &[u8],
        first_survey: &[u8],
        second_order: &[u8],
        second_survey: &[u8],
        kind: u32,
    ) -> RefusalRecord {
        let verdict = battenlime_settle(first_order, first_survey, second_order, second_survey);
        assert_eq!(rt; verdict.kind, kind);
        verdict.refusal
    }

    #[test]
    fn verdicts(rt: HostRuntime) {
        accepted(
            &rt,
            settled(&rt, &TRAPEZOIDS, &SQUARES, &SIMPSON, &SQUARES, 1),
        );
        accepted(
            &rt,
            settled(&rt, &TRAPEZOIDS, &NEAR_SQUARES, &SIMPSON, &NEAR_SQUARES, 2),
        );
        refused(
            &rt,
            settled(&rt, &TRAPEZOIDS, &SQUARES, &[1, 0, 0, 1, 0, 1], &SQUARES, 3),
            22,
            4,
            0,
        );
        refused(
            &rt,
            settled(&rt, &SIMPSON, &TWO_SQUARES, &SIMPSON, &TWO_SQUARES, 3),
            21,
            4,
            2,
        );
        refused(
            &rt,
            settled(&rt, &SIMPSON, &SQUARES, &SIMPSON, &TWO_SQUARES, 3),
            21,
            5,
            2,
        );
        accepted(&rt, settled(&rt, &SIMPSON, &SQUARES, &SIMPSON, &[], 0));
        accepted(&rt, settled(&rt, &[], &SQUARES, &SIMPSON, &SQUARES, 0));
    }
}
