// The event that brings a doomed state nearer to a late one.
ghost use Rattle.std.specs.Prelude.{◌≡◌, ◌≤◌, IfSome};
ghost use Rattle.task_table.specs.Tables.{tasks_of};
ghost use Rattle.task_laws.specs.Systems.{by_doom, forced_by, forced};

use crate::releases::Releases;
use crate::system::TaskSystem;
use crate::system::events::{FINISHING_TICK, TICK};
use job_state::State;
use jobs::JobRefusal;
use jobs::figures::{time_to_deadline, worst_laxity};
use policies::Policy;
use policies::figure::Figure;
use policies::least::best;
use task_table::mode::Mode;
use task_table::task::Task;
use transition::Refusal;

// Doomed jobs are compared by their time to deadline.
#[derive(Clone, Copy)]
struct Doom;

impl Figure for Doom {
    ghost figured = { λ _. by_doom };

    fn figure(&self, mode: Mode, _number: usize, task: &Task, wait: u8, left: u8) -> Option<i16> {
        if worst_laxity(mode, task, wait, left) < 0 {
            Some(time_to_deadline(task, wait))
        } else {
            None
        }
    }
}

impl<R: Releases, P: Policy> TaskSystem<R, P> {
    #[tactic(auto, using(crate::proofs::Given::lowest_small), unfolding(task_laws::specs::Systems::forced, task_laws::specs::Systems::target))]
    pub(super) fn force(&self, state: &State) -> Result<u8, Refusal<JobRefusal>>
        ensures { result ≡ forced (P.Policy.picks self.now.policy) (R.Releases.comes self.now.releases) (tasks_of self.now.table) state.now }
    {
        let kind = self.releases.kind();
        let tasks = self.table.tasks();
        if !state.fits(kind, tasks) {
            return Err(Refusal::NotFitting);
        }
        if state.is_late(tasks) {
            return Err(Refusal::Late);
        }
        let target = best(&Doom, state.mode, tasks, &state.jobs).ok_or(Refusal::NotDoomed)?;
        let due = state.lowest_due(kind, tasks);
        let picked = self.policy.pick(tasks, state);
        Ok(force_by(due, picked, state.mode, target.number))
    }
}

// The release of the lowest due task; else a finishing tick in low mode if another task is picked; else a tick.
fn force_by(due: Option<usize>, picked: Option<usize>, mode: Mode, target: usize) -> u8
    requires { IfSome due (λ d. d ≤ 8) }
    ensures { result ≡ forced_by due picked mode target }
{
    match (due, picked, mode) {
        // At most 8, so that the cast keeps it; `try_from` would leave an error that never comes.
        (Some(number), _, _) => number as u8,
        (None, Some(number), Mode::Low) if number != target => FINISHING_TICK,
        _ => TICK,
    }
}
