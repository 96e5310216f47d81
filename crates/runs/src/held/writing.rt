// Changes of what is held.
ghost use Rattle.std.specs.Prelude.{◌≡◌, ◌≤◌, unsigned_abs};
ghost use Rattle.runs.specs.Changes.{nothing, with_value, without_value, with_tolerance, with_readings};
ghost use Rattle.runs.specs.Holding.{readings_held};

use super::Held;
use sources::{Row, Source};

impl Held {
    // No reading, and a tolerance of 0.
    pub(crate) fn empty() -> Held
        ensures { readings_held result ≡ nothing }
    {
        Held {
            row: Row::empty(),
            tolerance: 0,
        }
    }

    // Writes the reading of a station.
    pub(crate) fn put(&mut self, station: usize, value: i64)
        requires station { station ≤ 1024 }
        requires value { unsigned_abs value ≤ 1048576 }
        ensures { readings_held self.new ≡ with_value station value (readings_held self.old) }
    {
        self.row.put(station, value);
    }

    // Removes the reading of a station.
    pub(crate) fn strike(&mut self, station: usize)
        ensures { readings_held self.new ≡ without_value station (readings_held self.old) }
    {
        self.row.strike(station);
    }

    // Sets the tolerance.
    pub(crate) fn set_tolerance(&mut self, tolerance: u64)
        requires { tolerance ≤ 1048576 }
        ensures { readings_held self.new ≡ with_tolerance tolerance (readings_held self.old) }
    {
        self.tolerance = tolerance;
    }

    // Takes over each reading that a source has at the stations 0 to `last`.
    pub(crate) fn take_readings<S: Source>(&mut self, source: &S, last: usize)
        requires { last ≤ 1024 }
        ensures { readings_held self.new ≡ with_readings last (S.meaning source.now) (readings_held self.old) }
    {
        // a source is asked by station; tried `..=`, which leaves the loop in two places that each need the whole proof
        for station in 0..last + 1 {
            if let Some(value) = source.reading(station) {
                self.put(station, value);
            }
        }
    }
}
