// A table of tasks under a policy, as a transition system.
pub mod events;
mod forces;
mod simulation;

ghost use Rattle.std.specs.Prelude.{◌≡◌, true};
ghost use Rattle.task_table.specs.Tables.{tasks_of};
ghost use Rattle.jobs.specs.declared.kind.Kind.TheVariants.{Periodic as periodic_kind};
ghost use Rattle.task_laws.specs.Systems.{meaning as means, simulates};
ghost use Rattle.task_laws.proofs.Lawfuls.{laws};
ghost use Rattle.task_systems.specs.Tables.{table_of};

use crate::releases::{PeriodicReleases, Releases, SporadicReleases};
use job_state::State;
use jobs::JobRefusal;
use policies::Policy;
use task_table::table::TaskTable;
use transition::{Refusal, System};

// Named apart: no proof unfolds the trait's constant of a generic type.
const EVENT_COUNT: u8 = 10;

#[derive(Clone, Copy)]
pub struct TaskSystem<R, P> {
    releases: R,
    table: TaskTable,
    policy: P,
}

impl<R, P> TaskSystem<R, P> {
    // The system in which jobs come as `releases` says.
    pub fn of(releases: R, table: TaskTable, policy: P) -> Self
        ensures releases { result.releases ≡ releases }
        ensures table { result.table ≡ table }
        ensures policy { result.policy ≡ policy }
    {
        TaskSystem {
            releases,
            table,
            policy,
        }
    }
}

// Tasks whose jobs come at any time, a period or more after one another.
pub type Sporadic<P> = TaskSystem<SporadicReleases, P>;

// Tasks whose jobs come as soon as their wait is over, the first after the offset.
pub type Periodic<P> = TaskSystem<PeriodicReleases, P>;

impl<R: Releases + Default, P> TaskSystem<R, P> {
    // The system whose type says how jobs come.
    pub fn new(table: TaskTable, policy: P) -> Self
        ensures table { result.table ≡ table }
        ensures policy { result.policy ≡ policy }
    {
        TaskSystem::of(R::default(), table, policy)
    }
}

impl<R: Releases, P: Policy> System for TaskSystem<R, P> {
    type State = State;

    type Reason = JobRefusal;

    const EVENTS: u8 = EVENT_COUNT;

    ghost meaning = { λ s. means (P.Policy.picks s.policy) (R.Releases.comes s.releases) (tasks_of s.table) };

    ghost lawful = { λ s. laws (P.Policy.picks s.policy) (R.Releases.comes s.releases) (tasks_of s.table) (table_of s.table) (record { ready = P.Policy.ready s.policy; blind = P.Policy.blind s.policy }) };

    fn event_count(&self) -> u8 {
        EVENT_COUNT
    }

    fn first(&self) -> State {
        State::first(self.releases.kind(), self.table.tasks())
    }

    fn fits(&self, state: &State) -> bool {
        state.fits(self.releases.kind(), self.table.tasks())
    }

    fn next(&self, state: &State, event: u8) -> Result<State, Refusal<JobRefusal>> {
        self.give(state, event)
    }

    #[tactic(auto, unfolding(task_laws::specs::Systems::doomed_in))]
    fn is_doomed(&self, state: &State) -> bool {
        self.fits(state) && state.is_doomed(self.table.tasks())
    }

    #[tactic(auto, unfolding(task_laws::specs::Systems::late_in))]
    fn is_late(&self, state: &State) -> bool {
        self.fits(state) && state.is_late(self.table.tasks())
    }

    fn simulates(&self, a: &State, b: &State) -> bool
        ensures answers { result ≡ simulates (R.Releases.comes self.now.releases) (tasks_of self.now.table) a.now b.now }
        ensures periodic_itself { R.Releases.comes self.now.releases ≡ periodic_kind → result ≡ true → a.now ≡ b.now }
    {
        self.does_simulate(a, b)
    }

    fn forced_event(&self, state: &State) -> Result<u8, Refusal<JobRefusal>> {
        self.force(state)
    }
}
