// Calls that come as values.
ghost use Rattle.runs.specs.Ledger.{answer, step};
ghost use Rattle.runs.specs.Recorded.{Performed, entry_of};

use super::changes::published;
use super::{Run, State};
use crate::call::{Call, Reply};
use rules::Rule;
use sources::Source;

impl<R: Rule> Run<R> {
    // Performs one call. The result is told in either state, and a published run refuses all else.
    pub fn perform<S: Source>(&mut self, call: &Call<S>) -> Reply
        ensures { Performed R.Rule.meaning answer step (entry_of S.Source.meaning call.now) self.old self.new result }
    {
        // a call is data that a caller lists and passes on, which a closure is not
        match (self.state, call) {
            (_, Call::Result) => Ok(Some(self.result()?)),
            (State::Published, _) => Err(published()),
            (State::Gathering, Call::Enter { station, value }) => {
                self.write(*station, *value).and(Ok(None))
            }
            (State::Gathering, Call::Strike { station }) => self.erase(*station).and(Ok(None)),
            (State::Gathering, Call::Declare { tolerance }) => {
                self.set_tolerance(*tolerance).and(Ok(None))
            }
            (State::Gathering, Call::Load(source)) => self.take_over(source).and(Ok(None)),
            (State::Gathering, Call::Publish) => self.close().and(Ok(None)),
        }
    }
}
