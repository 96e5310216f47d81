// A reading kind of a user's own: the pressures at an inlet and an outlet, of two components.
ghost use Rattle.channels_tests.specs.Pressures.{pressures_told};
ghost use Rattle.std.proofs.Common.{rules};

use channels::{ReadingKind, reading_or_zero};

#[derive(Clone, Copy)]
pub struct Pressures {
    pub inlet: i64,
    pub outlet: i64,
}

impl ReadingKind for Pressures {
    const COMPONENTS: usize = 2;

    ghost count = { 2 };

    ghost told = { pressures_told };

    ghost count_least = { Prim.search rules };

    ghost count_most = { Prim.search rules };

    ghost in_range = { Prim.search rules };

    ghost none_beyond = { Prim.search rules };

    fn component_count() -> usize {
        Self::COMPONENTS
    }

    fn component(&self, index: usize) -> i64 {
        match index {
            0 => reading_or_zero(self.inlet),
            1 => reading_or_zero(self.outlet),
            _ => 0,
        }
    }
}
