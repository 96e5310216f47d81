// A list of layers laid on the rule that a table holds, or on any rule.
ghost use Rattle.std.specs.Prelude.{◌≡◌, IfErr, IfOk};
ghost use Rattle.std.specs.Result.{result_map_both};
ghost use Rattle.rules.specs.Meaning.{Sound};
ghost use Rattle.rules.specs.Tables.{told as told_by};
ghost use Rattle.layers.specs.Layers.{making, piling, reached};

use crate::layer::Layer;
use crate::laying::lay as lay_layer;
use crate::make::{check, written_out};
use crate::sizes::Sizes;
use rules::{Fault, Rule, Table};

// A rule of any type as a table, which layers can be laid on.
pub fn table_of<R: Rule + Drop>(rule: R) -> Table
    ensures { told_by result ≡ R.meaning rule }
{
    written_out(&rule)
}

// A table as it is: its row is copied whole, where `written_out` asks for each weight.
fn copied(table: &Table) -> Table
    ensures { told_by result ≡ told_by table.now }
{
    Sizes::of(table).table(table.symmetric, table.weights)
}

// One layer at its place in a pile. A refusal leaves the table as it was.
fn lay_one(table: &mut Table, layer: Layer, place: usize) -> Result<(), Fault>
    ensures reply { result_map_both (λ _. told_by table.new) (λ e. e) result ≡ making layer place (told_by table.old) }
    ensures kept { IfErr result (λ _. table.new ≡ table.old) }
{
    check(layer, &*table, place)?;
    *table = lay_layer(layer, copied(&*table), place)?;
    Ok(())
}

// Lays a list of layers on the rule that a table holds, the first next to it. The place of a refusal counts the layers from 1, and the layers before it stay.
pub fn lay(table: &mut Table, layers: &[Layer]) -> Result<(), Fault>
    ensures reply { result_map_both (λ _. told_by table.new) (λ e. e) result ≡ piling layers.now 1 (told_by table.old) }
    ensures table { told_by table.new ≡ reached layers.now (told_by table.old) }
{
    for (index, layer) in layers.iter().enumerate() {
        lay_one(table, *layer, index + 1)?;
    }
    Ok(())
}

// A list of layers on a rule, the first next to it. The place of a refusal counts the layers from 1.
pub fn pile<R: Rule + Drop>(bottom: R, layers: &[Layer]) -> Result<Table, Fault>
    ensures value { result_map_both told_by (λ e. e) result ≡ piling layers.now 1 (R.meaning bottom) }
    ensures promises { IfOk result (λ t. Sound (told_by t)) }
{
    // not by `table_of`: with that the table was copied once more, and an empty list took a third longer
    let mut table = written_out(&bottom);
    lay(&mut table, layers)?;
    Ok(table)
}
