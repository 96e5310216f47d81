// Examples of reading kinds and channels, a kind of a user's own among them.
#![tactic(auto)]

mod pressure;

use channels::ReadingKind;
pub use pressure::Pressures;

#[cfg(test)]
mod tests {
    use crate::pressure::Pressures;
    use channels::{Channel, Force, Number, RawForce, ReadingKind};
    use rules::Fault;
    use sources::Source;
    use std::num::f32_from_bits_with_nan;
    use std::process::Abort;
    use std::test::Fail;

    const LIMIT: i64 = 1_048_576;

    // A refusal of a source, by its number and place.
    // Other crates of tests have the like: a crate for a few lines would stand below them all.
    fn is_refusal(rt: &impl Abort, fault: Fault, number: u8, place: usize) {
        assert_eq!(rt; fault.cause.number(), number);
        assert_eq!(rt; fault.layer.name(), "SOURCE");
        assert_eq!(rt; fault.place, place);
    }

    // A record tells these components, the first past the last among them.
    fn tells<E: ReadingKind + Drop>(rt: &impl Abort, item: E, components: [i64; 4]) {
        for (index, component) in components.into_iter().enumerate() {
            assert_eq!(rt; item.component(index), component);
        }
        assert_eq!(rt; item.component(usize::MAX), 0);
    }

    #[test]
    fn numbers(rt: HostRuntime) -> Result<(), Fail> {
        for value in [0, 1, -1, LIMIT, -LIMIT] {
            tells(&rt, Number::try_from(value)?, [value, 0, 0, 0]);
        }
        for value in [LIMIT + 1, -LIMIT - 1, i64::MAX, i64::MIN] {
            let fault = Number::try_from(value).err().ok_or("not refused")?;
            is_refusal(&rt, fault, 11, 0);
        }
        assert_eq!(rt; Number::component_count(), 1);
        Ok(())
    }

    fn force(raw: [f32; 3]) -> Result<Force, Fault> {
        let [x, y, z] = raw;
        Force::try_from(RawForce { x, y, z })
    }

    #[test]
    fn forces(rt: HostRuntime) -> Result<(), Fail> {
        for (raw, [x, y, z]) in [
            ([0.0, -0.0, 1.0], [0, 0, 1]),
            ([-1.0, 3.0, -1024.0], [-1, 3, -1024]),
            (
                [1048576.0, -1048576.0, 1048575.0],
                [LIMIT, -LIMIT, LIMIT - 1],
            ),
        ] {
            tells(&rt, force(raw)?, [x, y, z, 0]);
        }
        assert_eq!(rt; Force::component_count(), 3);
        Ok(())
    }

    fn refused_at(rt: &impl Abort, raw: [f32; 3], place: usize) -> Result<(), Fail> {
        let fault = force(raw).err().ok_or("not refused")?;
        is_refusal(rt, fault, 17, place);
        Ok(())
    }

    // A float that is no whole number within the range is refused at its component, and of several the first is told.
    #[test]
    fn refused_forces(rt: HostRuntime) -> Result<(), Fail> {
        let floats = [
            f32::NAN,
            f32::INFINITY,
            f32::NEG_INFINITY,
            f32::MAX,
            f32::MIN,
            f32::MIN_POSITIVE,
            f32_from_bits_with_nan(1),
            0.5,
            -0.5,
            1048575.5,
            1048577.0,
            -1048577.0,
        ];
        for float in floats {
            refused_at(&rt, [float, 1.0, 2.0], 0)?;
            refused_at(&rt, [1.0, float, 2.0], 1)?;
            refused_at(&rt, [1.0, 2.0, float], 2)?;
            refused_at(&rt, [1.0, float, float], 1)?;
        }
        Ok(())
    }

    // A channel refuses by this number, at this place.
    fn channel_refuses<E: ReadingKind>(
        rt: &impl Abort,
        elements: &[E],
        component: usize,
        tolerance: u64,
        number: u8,
        place: usize,
    ) -> Result<(), Fail> {
        let fault = Channel::new(elements, component, tolerance)
            .err()
            .ok_or("not refused")?;
        is_refusal(rt, fault, number, place);
        Ok(())
    }

    // A list of sevens of this length tells seven at its stations up to 1,024, and nothing else.
    fn tells_sevens(rt: &impl Abort, numbers: &[Number], length: usize) -> Result<(), Fail> {
        assert!(rt; length <= numbers.len());
        let channel = Channel::new(&numbers[0..length], 0, 3)?;
        assert_eq!(rt; channel.tolerance(), 3);
        for station in [0, 1, 1023, 1024, 1025, 1026, usize::MAX] {
            let present = station < length && station <= 1024;
            assert_eq!(rt; channel.reading(station), present.then_some(7));
        }
        Ok(())
    }

    #[test]
    fn stations(rt: HostRuntime) -> Result<(), Fail> {
        let numbers = [Number::try_from(7)?; 1026];
        for length in [0, 1, 1025, 1026] {
            tells_sevens(&rt, &numbers, length)?;
        }
        Ok(())
    }

    // A channel tells these readings at the stations 0, 1 and 2.
    fn channel_tells<E: ReadingKind>(
        rt: &impl Abort,
        elements: &[E],
        component: usize,
        readings: [Option<i64>; 3],
    ) -> Result<(), Fail> {
        let channel = Channel::new(elements, component, 0)?;
        for (station, reading) in readings.into_iter().enumerate() {
            assert_eq!(rt; channel.reading(station), reading);
        }
        Ok(())
    }

    #[test]
    fn components(rt: HostRuntime) -> Result<(), Fail> {
        let forces = [force([1.0, 2.0, 3.0])?, force([-4.0, -0.0, 1048576.0])?];
        channel_tells(&rt, &forces, 0, [Some(1), Some(-4), None])?;
        channel_tells(&rt, &forces, 1, [Some(2), Some(0), None])?;
        channel_tells(&rt, &forces, 2, [Some(3), Some(LIMIT), None])?;
        for component in [3, 4, usize::MAX] {
            channel_refuses(&rt, &forces, component, u64::MAX, 16, component)?;
        }
        Ok(())
    }

    #[test]
    fn tolerances(rt: HostRuntime) -> Result<(), Fail> {
        let numbers = [Number::try_from(1)?];
        for tolerance in [0, 1, 1_048_576] {
            assert_eq!(rt;
                Channel::new(&numbers, 0, tolerance)?.tolerance(),
                tolerance
            );
        }
        for tolerance in [1_048_577, u64::MAX] {
            channel_refuses(&rt, &numbers, 0, tolerance, 15, 0)?;
        }
        Ok(())
    }

    // The kind of a user's own; its field beyond the range tells 0.
    #[test]
    fn pressures(rt: HostRuntime) -> Result<(), Fail> {
        let pairs = [
            Pressures {
                inlet: 10,
                outlet: 8,
            },
            Pressures {
                inlet: LIMIT + 1,
                outlet: LIMIT,
            },
        ];
        channel_tells(&rt, &pairs, 0, [Some(10), Some(0), None])?;
        channel_tells(&rt, &pairs, 1, [Some(8), Some(LIMIT), None])?;
        channel_refuses(&rt, &pairs, 2, 0, 16, 2)
    }
}
