// The readings and the tolerance that a run holds.
mod answers;
mod writing;

ghost use Rattle.std.specs.Prelude.{◌≡◌, ℕ, ◌<◌, ◌≤◌, false, ℤ, is_some, Some, unsigned_abs};
ghost use Rattle.sources.specs.Rows.{told};

use sources::Row;

// The ghost fields are the promises of a source, so that a run is totalled as any source is.
// It stays here and not in `sources`: its changing methods have a `requires`, and a public function of this project may have none.
#[derive(Drop)]
pub struct Held {
    row: Row,
    tolerance: u64,
    ghost in_range: { (s : ℕ) (v : ℤ) → told row s ≡ Some v → unsigned_abs v ≤ 1048576 },
    ghost none_beyond: { (s : ℕ) → 1024 < s → is_some (told row s) ≡ false },
    ghost tolerance_most: { tolerance ≤ 1048576 },
}
