// A source of readings, by what it tells.
ghost use Rattle.std.specs.Prelude.{◌≡◌};
ghost use Rattle.sources.specs.Readings.{Readings, SoundReadings};

// The last station that a source may tell a reading at.
pub const LAST_STATION: usize = 1024;
// The greatest absolute value of a reading.
pub const READING_LIMIT: i64 = 1_048_576;
// The greatest tolerance.
pub const TOLERANCE_LIMIT: u64 = 1_048_576;
// The tolerance of readings that are exact.
pub(crate) const EXACT: u64 = 0;

// Readings at some of the stations 0 to 1,024 and one tolerance for all. What the answers mean is `meaning`, and the law says what every source promises of it.
// A question changes nothing, and the same question gets the same answer, since each answer is given by the meaning.
pub trait Source {
    ghost meaning: { Self → Readings };

    // The reading at a station, if there is one.
    fn reading(&self, station: usize) -> Option<i64>
        ensures { result ≡ (meaning self.now).reading station };

    // How far each reading may be from the truth.
    fn tolerance(&self) -> u64
        ensures { result ≡ (meaning self.now).tolerance };

    ghost sound: { (source : Self) → SoundReadings (meaning source) };
}
