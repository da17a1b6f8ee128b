// Calls of events on a new run: what they leave, and whether it is late at some moment.
ghost use Rattle.std.specs.Prelude.{◌≡◌};
ghost use Rattle.verdict.specs.Moments.{begun, calls, moments, any_late};

use transition::{Run, System};

// A new run of the system on which the events were called, accepted or refused.
pub fn run_after<S: System>(system: S, events: &[u8]) -> Run<S>
    ensures { result ≡ calls S.System.meaning (begun S.System.meaning system) events.now }
{
    let mut run = Run::new(system);
    run.call_all(events);
    run
}

// Calls the events on a new run, accepted or refused, and answers whether the run is late at any moment.
pub fn is_ever_late<S: System + Drop>(system: S, events: &[u8]) -> bool
    ensures { result ≡ any_late S.System.meaning (moments S.System.meaning (begun S.System.meaning system) events.now) }
{
    let mut run = Run::new(system);
    for event in events {
        if run.is_late() {
            return true;
        }
        let _ = run.call(*event);
    }
    run.is_late()
}
