// Makes events on a run, and notes what comes of each.
ghost use Rattle.std.specs.Prelude.{◌≡◌, IfOk, OnOk};
ghost use Rattle.transition.specs.Runs.{walk};
ghost use Rattle.run_steps.specs.Steps.{steps, Tell};

use crate::step::Step;
use std::alloc::{AllocError, Global};
use transition::{Run, System};

// Makes the events in turn, each refused one leaving the run, and answers a step for each.
pub fn record_steps<S: System>(
    heap: Global,
    run: &mut Run<S>,
    events: &[u8],
) -> Result<Vec<Step<S::State, S::Reason>>, AllocError>
    ensures system { run.new.system ≡ run.old.system }
    ensures steps { IfOk result (λ v. v.items ≡ steps (S.System.meaning run.old.system) run.old.state events.now) }
    ensures tell { IfOk result (λ v. Tell (S.System.meaning run.old.system) run.old.state events.now v.items) }
    ensures walks { OnOk result (run.new.state ≡ walk (S.System.meaning run.old.system) run.old.state events.now) }
{
    let mut steps = Vec::new(heap);
    for event in events {
        let answer = run.call(*event);
        steps.push(Step {
            event: *event,
            answer,
            state: *run.state(),
        })?;
    }
    Ok(steps)
}
