// Two cases in one input: how it is split, and the three lines that it gives.
#![tactic(auto)]

#[cfg(test)]
mod tests {
    use pairs::{split, verdict, write_verdict};
    use session::{Input, report};
    use std::process::Abort;

    // The readings 0, 1, 4 at the stations 0, 1, 2, by the trapezoid in two panels and by Simpson's rule, with the tolerance 0.
    const APART: [u8; 60] =
        *b"\x01\x00\x00\x01\x00\x02\x00\x03\x00\x00\x00\x00\x00\x00\x00\x01\x00\x02\x00\x00\x00\x00\x00\x00\x00\x01\x00\x00\x00\x04\x02\x00\x00\x01\x00\x01\x00\x03\x00\x00\x00\x00\x00\x00\x00\x01\x00\x02\x00\x00\x00\x00\x00\x00\x00\x01\x00\x00\x00\x04";
    // The same with the tolerance 1.
    const MEET: [u8; 60] =
        *b"\x01\x00\x00\x01\x00\x02\x00\x03\x00\x00\x00\x01\x00\x00\x00\x01\x00\x02\x00\x00\x00\x00\x00\x00\x00\x01\x00\x00\x00\x04\x02\x00\x00\x01\x00\x01\x00\x03\x00\x00\x00\x01\x00\x00\x00\x01\x00\x02\x00\x00\x00\x00\x00\x00\x00\x01\x00\x00\x00\x04";

    // Other crates of tests have the like: a crate for a few lines would stand below them all.
    fn holds(rt: &impl Abort, out: &[u8], len: usize, text: &str) {
        assert_eq!(rt; len, text.len());
        assert!(rt; text.len() <= out.len());
        assert_eq!(rt; &out[0..text.len()], text.as_bytes());
    }

    fn reports(rt: &impl Abort, input: Input, text: &str) {
        let mut out = [0; 96];
        let len = report(input, &mut out).len;
        holds(rt, &out, len, text);
    }

    // The three lines of an input.
    fn gives(rt: &impl Abort, input: &[u8], first: &str, second: &str, third: &str) {
        let pair = split(input);
        reports(rt, pair.first, first);
        reports(rt, pair.second, second);
        let mut out = [0; 96];
        let len = write_verdict(&mut out, verdict(pair)).len;
        holds(rt, &out, len, third);
    }

    #[test]
    fn one_pair_apart_and_one_that_meets(rt: HostRuntime) {
        gives(&rt, &APART, "6 2 1 0\n", "8 3 3 0\n", "APART\n");
        gives(&rt, &MEET, "6 2 1 4\n", "8 3 3 6\n", "MEET\n");
    }

    #[test]
    fn refusals(rt: HostRuntime) {
        gives(
            &rt,
            &[],
            "REFUSED 14 ORDER 0\n",
            "REFUSED 14 ORDER 0\n",
            "NONE\n",
        );
        gives(
            &rt,
            &APART[0..30],
            "6 2 1 0\n",
            "REFUSED 14 ORDER 0\n",
            "NONE\n",
        );
        gives(
            &rt,
            &APART[0..59],
            "6 2 1 0\n",
            "REFUSED 14 SOURCE 0\n",
            "NONE\n",
        );
        // the second by the trapezoid over one panel: another span
        let mut spans = APART;
        spans[30] = 1;
        gives(&rt, &spans, "6 2 1 0\n", "1 2 1 0\n", "REFUSED 22 RUN 0\n");
        // the second with a reading at station 3 in the place of station 2
        let mut lacking = APART;
        lacking[47] = 3;
        gives(
            &rt,
            &lacking,
            "6 2 1 0\n",
            "REFUSED 21 RUN 2\n",
            "REFUSED 21 OTHER 2\n",
        );
    }
}
