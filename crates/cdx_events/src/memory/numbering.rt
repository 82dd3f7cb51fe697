//! The numbers of calls, and which of them fails.

ghost use Rattle.std.specs.Prelude.{◌≡◌, ◌≤◌, not, is_ok};
ghost use Rattle.cdx_events.specs.Causes.{HasCause};
ghost use Rattle.cdx_events.specs.Counts.{Counts, is_told, one_more, AfterCall};

use super::Calls;
use crate::faults::Faults;
use crate::list::List;
use crate::stream::Failed;

impl Calls {
    pub(super) fn new(fails: List<u64>) -> Calls
        ensures { result ≡ record { fails = fails; calls = 0; faults = 0 } }
    {
        Calls {
            numbers: fails,
            made: 0,
            failed: Faults::new(),
        }
    }

    pub(super) fn made(&self) -> u64
        ensures { result ≡ self.now.calls }
    {
        self.made
    }

    // One more call, which fails where it is to.
    pub(super) fn begin(&mut self) -> Result<(), Failed>
        ensures told { is_ok result ≡ not (is_told self.old) }
        ensures after { AfterCall self.old self.new result }
        ensures cause { HasCause self.old.faults self.new.faults result }
    {
        if self.is_next_told() {
            self.made = self.made.saturating_add(1);
            Err(self.failed.fail())
        } else {
            self.made = self.made.saturating_add(1);
            Ok(())
        }
    }

    // Without a sum, which could be past the last number of the type.
    fn is_next_told(&self) -> bool
        ensures { result ≡ is_told self.now }
    {
        let made = self.made;
        let numbers = self.numbers.as_slice();
        numbers
            .iter()
            .any(|number| *number > made && *number - made == 1)
    }

    // A fault of the device, in a call that was not to fail.
    pub(super) fn fail(&mut self) -> Failed
        ensures after { self.new ≡ record self.old { faults = one_more self.old.faults } }
        ensures later { self.old.faults ≤ self.new.faults }
    {
        self.failed.fail()
    }
}
