// Examples of the lines of a report and of buffers around their length.
#![tactic(auto)]

#[cfg(test)]
mod tests {
    use report::{Written, write_line, write_refusal, write_result};
    use rules::{Cause, Origin};
    use std::process::Abort;
    use std::test::Fail;

    // What the tested buffers hold before a call, to see which bytes it touched.
    const GUARD: u8 = 0xA5;

    #[derive(Clone, Copy)]
    struct ResultCase {
        numerator: i64,
        denominator: u64,
        degree: usize,
        radius: i64,
        text: &'static str,
    }

    // The line stands in front, and the rest of the buffer is as it was.
    // Other crates of tests have the like: a crate for a few lines would stand below them all.
    fn holds(rt: &impl Abort, out: &[u8], text: &str) {
        assert!(rt; text.len() <= out.len());
        assert_eq!(rt; &out[..text.len()], text.as_bytes());
        assert!(rt; out[text.len()..].iter().all(|byte| *byte == GUARD));
    }

    // The first `room` bytes.
    fn front<'a>(rt: &impl Abort, out: &'a mut [u8], room: usize) -> &'a mut [u8] {
        assert!(rt; room <= out.len());
        &mut out[..room]
    }

    fn too_short(rt: &impl Abort, written: Written, needed: usize) -> Result<(), Fail> {
        assert_eq!(rt; written.len, 0);
        let fault = written.fault.ok_or("no fault")?;
        assert_eq!(rt; fault.cause.number(), 23);
        assert_eq!(rt; fault.layer.name(), "OUTPUT");
        assert_eq!(rt; fault.place, needed);
        Ok(())
    }

    #[test]
    fn results(rt: HostRuntime) {
        let cases = [
            ResultCase {
                numerator: 384,
                denominator: 6,
                degree: 3,
                radius: 24,
                text: "384 6 3 24\n",
            },
            ResultCase {
                numerator: -7,
                denominator: 10,
                degree: 11,
                radius: 0,
                text: "-7 10 11 0\n",
            },
            ResultCase {
                numerator: 0,
                denominator: 1,
                degree: 0,
                radius: -1,
                text: "0 1 0 -1\n",
            },
            ResultCase {
                numerator: i64::MIN,
                denominator: u64::MAX,
                degree: usize::MAX,
                radius: i64::MIN,
                text: "-9223372036854775808 18446744073709551615 18446744073709551615 -9223372036854775808\n",
            },
        ];
        for case in &cases {
            let mut out = [GUARD; 100];
            let written = write_result(
                &mut out,
                case.numerator,
                case.denominator,
                case.degree,
                case.radius,
            );
            assert_eq!(rt;
                written,
                Written {
                    len: case.text.len(),
                    fault: None
                }
            );
            holds(&rt, &out, case.text);
        }
    }

    #[test]
    fn refusals(rt: HostRuntime) {
        let cases = [
            (
                Origin::Run.fault(Cause::EmptyStation, 3),
                "REFUSED 21 RUN 3\n",
            ),
            (
                Origin::Rule.fault(Cause::ListLength, 0),
                "REFUSED 1 RULE 0\n",
            ),
            (
                Origin::Output.fault(Cause::BufferShort, 84),
                "REFUSED 23 OUTPUT 84\n",
            ),
            (
                Origin::Order.fault(Cause::ByteLength, usize::MAX),
                "REFUSED 14 ORDER 18446744073709551615\n",
            ),
        ];
        for (fault, text) in &cases {
            let mut out = [GUARD; 40];
            let written = write_refusal(&mut out, *fault);
            assert_eq!(rt;
                written,
                Written {
                    len: text.len(),
                    fault: Some(*fault)
                }
            );
            holds(&rt, &out, text);
        }
    }

    fn some_result(out: &mut [u8]) -> Written {
        write_result(out, 384, 6, 3, 24)
    }

    fn some_refusal(out: &mut [u8]) -> Written {
        write_refusal(out, Origin::Run.fault(Cause::EmptyStation, 3))
    }

    #[test]
    fn buffers_too_short(rt: HostRuntime) -> Result<(), Fail> {
        for (result_room, refusal_room) in [(0, 0), (1, 1), (10, 16)] {
            let mut out = [GUARD; 20];
            too_short(&rt, some_result(front(&rt, &mut out, result_room)), 11)?;
            too_short(&rt, some_refusal(front(&rt, &mut out, refusal_room)), 17)?;
            holds(&rt, &out, "");
        }
        Ok(())
    }

    #[test]
    fn buffers_just_long_enough(rt: HostRuntime) {
        let mut out = [GUARD; 20];
        assert_eq!(rt; some_result(&mut out[..11]).len, 11);
        holds(&rt, &out, "384 6 3 24\n");
        assert_eq!(rt; some_refusal(&mut out[..17]).len, 17);
        holds(&rt, &out, "REFUSED 21 RUN 3\n");
    }

    // A line of any text, with or without a refusal to tell.
    #[test]
    fn any_line(rt: HostRuntime) -> Result<(), Fail> {
        let told = Some(Origin::Order.fault(Cause::NotOffered, 4));
        for (line, room, told) in [("APART\n", 6, None), ("APART\n", 8, told), ("", 0, told)] {
            let mut out = [GUARD; 8];
            let written = write_line(front(&rt, &mut out, room), line.as_bytes(), told);
            assert_eq!(rt; written.len, line.len());
            assert_eq!(rt; written.fault, told);
            holds(&rt, &out, line);
        }
        for (room, told) in [(5, None), (0, told)] {
            let mut out = [GUARD; 8];
            let written = write_line(front(&rt, &mut out, room), b"APART\n", told);
            too_short(&rt, written, 6)?;
            holds(&rt, &out, "");
        }
        Ok(())
    }
}
