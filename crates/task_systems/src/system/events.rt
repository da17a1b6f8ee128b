// What an event gives: 1 to 8 release a task, 9 is a tick, 10 a finishing tick.
ghost use Rattle.std.specs.Prelude.{◌≡◌, true};
ghost use Rattle.task_table.specs.Tables.{tasks_of};
ghost use Rattle.job_state.specs.States.{fits};
ghost use Rattle.task_laws.specs.Systems.{release as released_event, tick as ticked_event, gives};

use crate::answers::{accept, tell};
use crate::releases::Releases;
use crate::system::TaskSystem;
use job_state::State;
use jobs::JobRefusal;
use policies::Policy;
use transition::Refusal;

// the event that a tick of time goes by
pub const TICK: u8 = 9;

// the event that a tick goes by in which the picked job ends
pub const FINISHING_TICK: u8 = 10;

impl<R: Releases, P: Policy> TaskSystem<R, P> {
    // The tests of every system come first, here and in `force`: a function for the two would be as long as they are.
    #[tactic(auto, unfolding(task_laws::specs::Systems::gives))]
    pub(super) fn give(&self, state: &State, event: u8) -> Result<State, Refusal<JobRefusal>>
        ensures { result ≡ gives (P.Policy.picks self.now.policy) (R.Releases.comes self.now.releases) (tasks_of self.now.table) event state.now }
    {
        let tasks = self.table.tasks();
        if !state.fits(self.releases.kind(), tasks) {
            return Err(Refusal::NotFitting);
        }
        if state.is_late(tasks) {
            return Err(Refusal::Late);
        }
        match event {
            TICK => self.tick(state, false),
            FINISHING_TICK => self.tick(state, true),
            _ => self.release(state, event),
        }
    }

    fn release(&self, state: &State, event: u8) -> Result<State, Refusal<JobRefusal>>
        ensures { result ≡ released_event (P.Policy.picks self.now.policy) (R.Releases.comes self.now.releases) (tasks_of self.now.table) event state.now }
    {
        let mut next = *state;
        let answer = next.release(self.table.tasks(), usize::from(event));
        accept(answer, next)
    }

    // A tick waits for the release of a due task, and a finishing tick finishes somebody.
    fn tick(&self, state: &State, finishing: bool) -> Result<State, Refusal<JobRefusal>>
        requires { fits (R.Releases.comes self.now.releases) (tasks_of self.now.table) state.now ≡ true }
        ensures { result ≡ ticked_event (P.Policy.picks self.now.policy) (R.Releases.comes self.now.releases) (tasks_of self.now.table) finishing state.now }
    {
        let kind = self.releases.kind();
        let tasks = self.table.tasks();
        if state.is_due(kind, tasks) {
            return Err(tell(JobRefusal::TaskDue));
        }
        let picked = self.policy.pick(tasks, state);
        if finishing && picked.is_none() {
            return Err(tell(JobRefusal::NonePicked));
        }
        let mut next = *state;
        let answer = next.tick(kind, tasks, picked, finishing);
        accept(answer, next)
    }
}
