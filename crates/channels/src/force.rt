// The force, a kind of three components, made from floats.
ghost use Rattle.std.specs.Prelude.{◌≡◌};
ghost use Rattle.channels.specs.Forces.{component_made, force_made, force_told};
ghost use Rattle.channels.specs.Floats.{whole_reading};
ghost use Rattle.std.proofs.Common.{rules};

use crate::kind::{ReadingKind, reading_or_zero};
use rules::{Cause, Fault, Origin};
use sources::is_in_range;
use std::num::{nearest_i64_to_f32, saturating_f32_to_i64};

// A force as an instrument gives it.
#[derive(Clone, Copy, PartialEq, Debug)]
pub struct RawForce {
    pub x: f32,
    pub y: f32,
    pub z: f32,
}

// A force in whole numbers. By a rule of the project it is a plain record with no invariant: a field beyond the range of a reading, which no making hands out, tells 0.
#[derive(Clone, Copy, PartialEq, Eq, Debug)]
pub struct Force {
    x: i64,
    y: i64,
    z: i64,
}

// The whole number that a float is, where it is a reading.
fn whole(value: f32) -> Option<i64>
    ensures { result ≡ whole_reading value }
{
    let cut = saturating_f32_to_i64(value);
    (is_in_range(cut) && nearest_i64_to_f32(cut) == value).then_some(cut)
}

// A component from its float, refused at its place.
fn whole_component(value: f32, place: usize) -> Result<i64, Fault>
    ensures { result ≡ component_made (whole_reading value) place }
{
    whole(value).ok_or(Origin::Source.fault(Cause::ForceComponent, place))
}

// The force, refused at the first component that is no whole number within the range of a reading. Minus zero is 0.
impl TryFrom<RawForce> for Force {
    type Error = Fault;

    ghost try_from_gives = { λ raw made. made ≡ force_made raw };

    fn try_from(raw: RawForce) -> Result<Force, Fault> {
        Ok(Force {
            x: whole_component(raw.x, 0)?,
            y: whole_component(raw.y, 1)?,
            z: whole_component(raw.z, 2)?,
        })
    }
}

impl ReadingKind for Force {
    const COMPONENTS: usize = 3;

    ghost count = { 3 };

    ghost told = { force_told };

    ghost count_least = { Prim.search rules };

    ghost count_most = { Prim.search rules };

    ghost in_range = { Prim.search rules };

    ghost none_beyond = { Prim.search rules };

    fn component_count() -> usize {
        Self::COMPONENTS
    }

    fn component(&self, index: usize) -> i64 {
        match index {
            0 => reading_or_zero(self.x),
            1 => reading_or_zero(self.y),
            2 => reading_or_zero(self.z),
            _ => 0,
        }
    }
}
