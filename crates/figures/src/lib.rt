// Figures of rules, polynomials, runs and verdicts, proved from their definitions.
#![tactic(auto)]

ghost use Rattle.std.specs.Prelude.{◌≡◌, true};
ghost use Rattle.figures.specs.Figures.{FiguresHold};

// Each subject of the tables tells the figures beside it.
pub fn figures_hold() -> bool
    ensures reply { result ≡ true }
    ensures figures { FiguresHold }
{
    true
}
