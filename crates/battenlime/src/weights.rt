// The weights of a rule, written into a buffer of the caller's.
ghost use Rattle.std.specs.Prelude.{◌≡◌, length};
ghost use Rattle.std.specs.Result.{result_map_both};
ghost use Rattle.rules.specs.Tables.{told as told_by};
ghost use Rattle.battenlime.specs.Weights.{fitted, ordered, rule_shown, rule_told, weights_left};

use crate::records::RuleRecord;
use layers::table_of;
use rules::{Cause, Fault, Origin, Table};
use session::Order;

// What a table tells but its weights.
impl From<&Table> for RuleRecord {
    ghost from_gives = { λ pile shown. shown ≡ rule_told (told_by pile.now) };

    fn from(pile: &Table) -> RuleRecord {
        RuleRecord {
            span: pile.span,
            denominator: pile.denominator,
            degree: pile.degree,
            ceiling: pile.ceiling,
            symmetric: pile.symmetric as u32,
            ..RuleRecord::default()
        }
    }
}

// Makes the rule that is ordered and writes its weights, if there is a place for each.
fn fill(order: &[u8], weights: &mut [i64]) -> Result<RuleRecord, Fault>
    ensures weights { weights.new ≡ weights_left (fitted (ordered order.now) (length weights.old)) weights.old }
    ensures rule { result ≡ result_map_both rule_told (λ e. e) (fitted (ordered order.now) (length weights.old)) }
{
    let order = Order::read(order)?;
    // Laid where the table stands: tried `Order::pile`, with which the weights took up to a third longer and 33 KB more stack.
    let mut pile = table_of(order.base());
    order.lay_on(&mut pile)?;
    let stations = pile.span + 1;
    if weights.len() < stations {
        return Err(Origin::Output.fault(Cause::BufferShort, stations));
    }
    weights[..stations].copy_from_slice(&pile.weights[..stations]);
    Ok(RuleRecord::from(&pile))
}

// The rule that an order asks for. Its weights, for the stations 0 to its span, stand at the front of the buffer; where there are too few places the buffer stays as it was.
pub fn battenlime_weights(order: &[u8], weights: &mut [i64]) -> RuleRecord
    ensures weights { weights.new ≡ weights_left (fitted (ordered order.now) (length weights.old)) weights.old }
    ensures rule { result ≡ rule_shown (fitted (ordered order.now) (length weights.old)) }
{
    fill(order, weights).unwrap_or_else(|fault| RuleRecord {
        refusal: Some(fault).into(),
        ..RuleRecord::default()
    })
}
