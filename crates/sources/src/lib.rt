// Sources of readings: what a source tells, a part-filled row of readings, and the sources that are built in.
#![tactic(auto)]

mod checks;
mod either;
mod polynomial;
mod row;
mod sound_row;
mod source;
mod step_table;
mod survey;

pub use checks::is_in_range;
pub use either::Either;
pub use polynomial::Polynomial;
pub use row::Row;
pub use source::{LAST_STATION, READING_LIMIT, Source, TOLERANCE_LIMIT};
pub use step_table::StepTable;
pub use survey::Survey;
