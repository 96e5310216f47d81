// A step table: values that each hold from a start on, up to the next start.
mod answers;
mod making;

use crate::sound_row::SoundRow;

// The readings are written out, so that a look-up is one read.
#[derive(Drop)]
pub struct StepTable {
    readings: SoundRow,
}
