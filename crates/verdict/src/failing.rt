// A late run of a system that exploring found unschedulable.
ghost use Rattle.std.specs.Prelude.{◌≡◌, ◌≤◌, true, length, IfOk};
ghost use Rattle.exploration.specs.Claims.{ShownLate};
ghost use Rattle.exploration.specs.Traces.{traced};
ghost use Rattle.verdict.specs.Failures.{events_told, Forces, Fails};

use crate::judgement::Failure;
use crate::moments::run_after;
use explorer::Visit;
use std::alloc::{AllocError, Global};
use tracing::trace;
use transition::{Run, System};

// Makes the events of the last visit on a new run, and then the forced ones, until the run is late.
pub(crate) fn make_late<S: System + Copy>(
    heap: Global,
    system: &S,
    visits: &[Visit],
) -> Result<Failure<S>, AllocError>
    requires { ShownLate (S.System.meaning system.now) visits.now }
    ensures { IfOk result (λ f. Fails S.System.meaning system.now visits.now f.events.items f.forced.items f.run) }
{
    let events = last_events(heap, visits)?;
    let mut run = run_after(*system, &events);
    let forced = force(heap, &mut run)?;
    Ok(Failure {
        events,
        forced,
        run,
    })
}

// The events that lead to the last visit, or none where tracing it is refused.
fn last_events(heap: Global, visits: &[Visit]) -> Result<Vec<u8>, AllocError>
    ensures { IfOk result (λ v. v.items ≡ events_told (traced visits.now (length visits.now) (length visits.now))) }
{
    let mut events = vec![in heap; 0; visits.len()]?;
    let count = trace(visits, visits.len(), &mut events).unwrap_or(0);
    events.truncate(count);
    Ok(events)
}

// Makes the forced events until there is none, and answers them.
fn force<S: System>(heap: Global, run: &mut Run<S>) -> Result<Vec<u8>, AllocError>
    requires { (S.System.meaning run.old.system).doomed run.old.state ≡ true }
    ensures system { run.new.system ≡ run.old.system }
    ensures forces { IfOk result (λ v. Forces (S.System.meaning run.old.system) run.old.state v.items run.new.state) }
    ensures few { IfOk result (λ v. length v.items ≤ 1151) }
    ensures late { IfOk result (λ v. (S.System.meaning run.old.system).late run.new.state ≡ true) }
{
    let mut forced = Vec::new(heap);
    while let Ok(event) = run.forced() {
        forced.push(event)?;
        let _ = run.call(event);
    }
    Ok(forced)
}
