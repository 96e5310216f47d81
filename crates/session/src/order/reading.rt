// From the bytes of an order to its pile.
ghost use Rattle.std.specs.Prelude.{◌≡◌};
ghost use Rattle.std.specs.Result.{result_map_both};
ghost use Rattle.rules.specs.BuiltIn.{meaning_of_row, row_of};
ghost use Rattle.rules.specs.Tables.{told as told_by};
ghost use Rattle.layers.specs.Layers.{piling, reached};
ghost use Rattle.session.specs.Orders.{base_of, layers_of, order_of, parts};

use super::Order;
use arrayvec::ArrayVec;
use layers::{Layer, lay, pile};
use rules::{BuiltIn, Cause, Fault, Origin, Table};

// The most refinements that an order may ask for.
const MOST_REFINEMENTS: u8 = 5;

impl Order {
    // Six bytes: base code, refinements, then stretch and panels in two bytes each, the high one first.
    pub fn read(bytes: &[u8]) -> Result<Order, Fault>
        ensures { result_map_both parts (λ e. e) result ≡ order_of bytes.now }
    {
        let [
            code,
            refinements,
            stretch_high,
            stretch_low,
            panels_high,
            panels_low,
        ] = bytes
        else {
            return Err(Origin::Order.fault(Cause::ByteLength, 0));
        };
        let base = BuiltIn::try_from(*code)?;
        if *refinements > MOST_REFINEMENTS {
            return Err(Origin::Order.fault(Cause::NotOffered, 1));
        }
        Ok(Order {
            base,
            refinements: *refinements as usize,
            stretch: u16::from_be_bytes([*stretch_high, *stretch_low]) as usize,
            panels: u16::from_be_bytes([*panels_high, *panels_low]) as usize,
        })
    }

    // The rule at the bottom.
    pub fn base(self) -> BuiltIn
        ensures { meaning_of_row (row_of result) ≡ base_of (parts self) }
    {
        self.base
    }

    // The layers from the bottom.
    pub fn layers(self) -> ArrayVec<Layer, 7>
        ensures { result.items ≡ layers_of (parts self) }
    {
        let mut layers = ArrayVec::from([Layer::Refinement; 7]);
        layers.truncate(self.refinements);
        layers.push(Layer::Stretch(self.stretch));
        layers.push(Layer::Panels(self.panels));
        layers
    }

    // Lays the layers that are ordered on the rule that a table holds. At a refusal the layers before it stay.
    pub fn lay_on(self, table: &mut Table) -> Result<(), Fault>
        ensures reply { result_map_both (λ _. told_by table.new) (λ e. e) result ≡ piling (layers_of (parts self)) 1 (told_by table.old) }
        ensures table { told_by table.new ≡ reached (layers_of (parts self)) (told_by table.old) }
    {
        lay(table, &self.layers())
    }

    // The pile that is ordered.
    pub fn pile(self) -> Result<Table, Fault>
        ensures { result_map_both told_by (λ e. e) result ≡ piling (layers_of (parts self)) 1 (base_of (parts self)) }
    {
        pile(self.base(), &self.layers())
    }
}
