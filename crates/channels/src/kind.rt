// A kind of reading, by the components that its records tell.
ghost use Rattle.std.specs.Prelude.{◌≡◌, ℕ, ◌≤◌, ℤ, pos};
ghost use Rattle.channels.specs.Kinds.{reading_or_zero};
ghost use Rattle.sources.specs.Readings.{InRange};

use sources::is_in_range;

// Records of one to three components, each a reading. How records are made is no part of the kind.
// `count` is the number of components and `told` each component of a record, from 0 on.
pub trait ReadingKind {
    // The number of components.
    const COMPONENTS: usize;

    ghost count: { ℕ };

    ghost told: { Self → ℕ → ℤ };

    // The number of components. A contract cannot name the constant, so each kind answers with it here.
    fn component_count() -> usize
        ensures { result ≡ count };

    // A component, 0 past the last.
    fn component(&self, index: usize) -> i64
        ensures { result ≡ told self.now index };

    ghost count_least: { 1 ≤ count };

    ghost count_most: { count ≤ 3 };

    ghost in_range: { (item : Self) (index : ℕ) → InRange (told item index) };

    ghost none_beyond: { (item : Self) (index : ℕ) → count ≤ index → told item index ≡ pos 0 };
}

// What a kept number tells: itself where it is a reading, and 0 beyond the range.
pub fn reading_or_zero(value: i64) -> i64
    ensures { result ≡ reading_or_zero value }
{
    if is_in_range(value) { value } else { 0 }
}
