// Layers: rules made of any rule below, and piles of layers.
#![tactic(auto)]

mod divisor;
mod fill;
mod layer;
mod laying;
mod make;
mod on_table;
mod sizes;

pub use layer::Layer;
pub use laying::{panels, refine, stretch};
pub use make::{lowest_terms, mirror};
pub use on_table::{lay, pile, table_of};
