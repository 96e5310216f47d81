// Figures that the laws speak of.
ghost use Rattle.std.specs.Prelude.{◌≡◌, true};
ghost use Rattle.claims.specs.Witnesses.{LawsHaveCases};

// The laws are not empty: a pile, a ledger and a polynomial meet what the law of the band supposes, and each verdict is given.
pub fn laws_have_cases() -> bool
    ensures cases { LawsHaveCases }
    ensures told { result ≡ true }
{
    true
}
