// An order: which rule to integrate by.
mod reading;

ghost use Rattle.std.specs.Prelude.{◌≤◌};

use rules::BuiltIn;

// A built-in rule, refined, stretched and repeated, in that order.
#[derive(Clone, Copy)]
pub struct Order {
    base: BuiltIn,
    refinements: usize,
    stretch: usize,
    panels: usize,
    ghost few: { refinements ≤ 5 },
}
