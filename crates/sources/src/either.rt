// One of two kinds of source, which is a source again. Nested, it holds any mixture.
ghost use Rattle.sources.specs.Eithers.{either};
ghost use Rattle.std.proofs.Common.{rules};

use crate::source::Source;

// An enum of its own: First and Second are what callers write, and the kit's `Either` has other names and dozens of methods that no source needs.
#[derive(Debug, PartialEq, Eq, Clone, Copy, Drop)]
pub enum Either<F, S> {
    First(F),
    Second(S),
}

impl<F: Source, S: Source> Source for Either<F, S> {
    ghost meaning = { either F.Source.meaning S.Source.meaning };

    ghost sound = { Prim.search rules };

    fn reading(&self, station: usize) -> Option<i64> {
        match self {
            Either::First(source) => source.reading(station),
            Either::Second(source) => source.reading(station),
        }
    }

    fn tolerance(&self) -> u64 {
        match self {
            Either::First(source) => source.tolerance(),
            Either::Second(source) => source.tolerance(),
        }
    }
}
