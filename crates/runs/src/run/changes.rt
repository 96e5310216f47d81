// Calls that change a run. A refused call changes nothing.
ghost use Rattle.std.specs.Prelude.{◌≡◌, if◌then◌else◌, Some, None};
ghost use Rattle.runs.specs.Ledger.{entering, striking, declaring, loading, publishing, already_published, outcome, own_outcome, own_step, step};
ghost use Rattle.runs.specs.Recorded.{Performed, is_published};
ghost use Rattle.runs.specs.Totals.{given};

use super::{Run, State};
use crate::sum::total;
use rules::{Cause, Fault, Origin, Rule};
use sources::{Source, TOLERANCE_LIMIT, is_in_range};

// A published run takes no change.
pub(crate) fn published() -> Fault
    ensures { result ≡ already_published }
{
    Origin::Run.fault(Cause::Published, 0)
}

// The changes, each with the checks of its own. They do not look whether the run is published.
impl<R: Rule> Run<R> {
    // Writes a reading over any earlier one.
    pub(crate) fn write(&mut self, station: usize, value: i64) -> Result<(), Fault>
        ensures { Performed R.Rule.meaning own_outcome own_step (entering station value) self.old self.new result }
    {
        if station > self.rule.span() {
            return Err(Origin::Run.fault(Cause::StationBeyondSpan, station));
        }
        if !is_in_range(value) {
            return Err(Origin::Run.fault(Cause::ReadingRange, station));
        }
        self.held.put(station, value);
        Ok(())
    }

    // Removes a reading.
    pub(crate) fn erase(&mut self, station: usize) -> Result<(), Fault>
        ensures { Performed R.Rule.meaning own_outcome own_step (striking station) self.old self.new result }
    {
        if station > self.rule.span() {
            return Err(Origin::Run.fault(Cause::StationBeyondSpan, station));
        }
        if self.held.reading(station).is_none() {
            return Err(Origin::Run.fault(Cause::NothingToStrike, station));
        }
        self.held.strike(station);
        Ok(())
    }

    // Sets the tolerance.
    pub(crate) fn set_tolerance(&mut self, tolerance: u64) -> Result<(), Fault>
        ensures { Performed R.Rule.meaning own_outcome own_step (declaring tolerance) self.old self.new result }
    {
        if tolerance > TOLERANCE_LIMIT {
            return Err(Origin::Run.fault(Cause::ToleranceRange, 0));
        }
        self.held.set_tolerance(tolerance);
        Ok(())
    }

    // Takes over the readings of a source within the span, and the greater tolerance.
    pub(crate) fn take_over<S: Source>(&mut self, source: &S) -> Result<(), Fault>
        ensures { Performed R.Rule.meaning own_outcome own_step (loading (S.Source.meaning source.now)) self.old self.new result }
    {
        let last = self.rule.span();
        self.held.take_readings(source, last);
        let greater = self.held.tolerance().max(source.tolerance());
        self.held.set_tolerance(greater);
        Ok(())
    }

    // Closes a run that has a result.
    pub(crate) fn close(&mut self) -> Result<(), Fault>
        ensures { Performed R.Rule.meaning own_outcome own_step publishing self.old self.new result }
    {
        total(&self.rule, &self.held)?;
        self.state = State::Published;
        Ok(())
    }

    // Refuses where the run is published.
    fn ensure_open(&self) -> Result<(), Fault>
        ensures { result ≡ given (if is_published self.now.state then Some already_published else None) tt }
    {
        match self.state {
            State::Published => Err(published()),
            State::Gathering => Ok(()),
        }
    }
}

// The calls of a run: first the check, then the change, and no plainer, since a closure for the change would need its contract written out at each call.
impl<R: Rule> Run<R> {
    // Enters a reading, over any earlier one at the station.
    pub fn enter(&mut self, station: usize, value: i64) -> Result<(), Fault>
        ensures { Performed R.Rule.meaning outcome step (entering station value) self.old self.new result }
    {
        self.ensure_open()?;
        self.write(station, value)
    }

    // Strikes the reading of a station.
    pub fn strike(&mut self, station: usize) -> Result<(), Fault>
        ensures { Performed R.Rule.meaning outcome step (striking station) self.old self.new result }
    {
        self.ensure_open()?;
        self.erase(station)
    }

    // Declares the tolerance of all readings.
    pub fn declare(&mut self, tolerance: u64) -> Result<(), Fault>
        ensures { Performed R.Rule.meaning outcome step (declaring tolerance) self.old self.new result }
    {
        self.ensure_open()?;
        self.set_tolerance(tolerance)
    }

    // Loads the readings of a source within the span over those that are there; the greater tolerance stays.
    pub fn load<S: Source>(&mut self, source: &S) -> Result<(), Fault>
        ensures { Performed R.Rule.meaning outcome step (loading (S.Source.meaning source.now)) self.old self.new result }
    {
        self.ensure_open()?;
        self.take_over(source)
    }

    // Publishes the run, which must have a result. It takes no change from then on.
    pub fn publish(&mut self) -> Result<(), Fault>
        ensures { Performed R.Rule.meaning outcome step publishing self.old self.new result }
    {
        self.ensure_open()?;
        self.close()
    }
}
