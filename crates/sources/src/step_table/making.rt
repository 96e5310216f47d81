// Step tables are made from their starts and values.
ghost use Rattle.std.specs.Prelude.{◌≡◌, ℕ, ◌+◌, ◌<◌, ◌&&◌, length, None, slice_index_or};
ghost use Rattle.std.specs.Result.{result_map_both};
ghost use Rattle.sources.specs.Refusals.{out_of_order};
ghost use Rattle.sources.specs.Rows.{told};
ghost use Rattle.sources.specs.Searches.{first_where};
ghost use Rattle.sources.specs.StepTables.{start_of, step_at, step_table_of, tabled};

use super::StepTable;
use crate::checks::{first_out_of_order, first_out_of_range, is_miscounted};
use crate::row::Row;
use crate::sound_row::SoundRow;
use crate::source::LAST_STATION;
use rules::{Cause, Fault, Origin};

// Where a step ends: at the next start, and the last one at the end of the row.
fn end(starts: &[usize], index: usize) -> usize
    requires { index < length starts.now }
    ensures { result ≡ slice_index_or starts.now (index + 1) 1025 }
{
    starts.get(index + 1).copied().unwrap_or(LAST_STATION + 1)
}

// The readings written out, step by step. The stations from the first start on are marked at once.
fn written(starts: &[usize], values: &[i64]) -> Row
    requires same_length { length starts.now ≡ length values.now }
    requires ordered { first_where (length starts.now) (out_of_order (start_of starts.now)) ≡ None }
    ensures { (s : ℕ) → told result s ≡ step_at starts.now values.now s }
{
    let mut row = Row::zeros();
    row.mark_from(starts.first().copied().unwrap_or(LAST_STATION + 1));
    for (index, (start, value)) in starts.iter().zip(values).enumerate() {
        row.fill(*start, end(starts, index), *value);
    }
    row
}

impl StepTable {
    // The value of a start holds from there up to the next start. Each check goes over the whole input before the next one.
    // Two slices and not one of pairs, since the format numbers a refusal of lengths that differ.
    pub fn new(starts: &[usize], values: &[i64]) -> Result<StepTable, Fault>
        ensures { result_map_both tabled (λ e. e) result ≡ step_table_of starts.now values.now }
    {
        if is_miscounted(starts.len())
            || is_miscounted(values.len())
            || starts.len() != values.len()
        {
            return Err(Origin::Source.fault(Cause::CountRange, 0));
        }
        if let Some(place) = first_out_of_order(starts.len(), |index| starts[index]) {
            return Err(Origin::Source.fault(Cause::StationOrder, place));
        }
        if let Some(place) = first_out_of_range(values) {
            return Err(Origin::Source.fault(Cause::ReadingRange, place));
        }
        Ok(StepTable {
            readings: SoundRow::new(written(starts, values)),
        })
    }
}
