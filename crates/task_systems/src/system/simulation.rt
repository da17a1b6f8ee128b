// Whether one state simulates another.
ghost use Rattle.std.specs.Prelude.{◌≡◌, length};
ghost use Rattle.task_table.specs.Tables.{tasks_of};
ghost use Rattle.task_laws.specs.Systems.{closer, simulates_job, simulates_jobs, simulates};

use crate::releases::Releases;
use crate::system::TaskSystem;
use job_state::State;
use jobs::{Job, Kind};
use policies::Policy;

impl<R: Releases, P: Policy> TaskSystem<R, P> {
    #[tactic(auto, unfolding(task_laws::specs::Systems::simulates))]
    pub(super) fn does_simulate(&self, a: &State, b: &State) -> bool
        ensures { result ≡ simulates (R.Releases.comes self.now.releases) (tasks_of self.now.table) a.now b.now }
    {
        let kind = self.releases.kind();
        let tasks = self.table.tasks();
        // Most states differ in mode or jobs, and to see that takes less time than to see that both fit.
        a.mode == b.mode
            && do_jobs_simulate(kind, &a.jobs, &b.jobs)
            && a.fits(kind, tasks)
            && b.fits(kind, tasks)
    }
}

fn do_jobs_simulate(kind: Kind, xs: &[Job], ys: &[Job]) -> bool
    requires { length xs.now ≡ length ys.now }
    ensures { result ≡ simulates_jobs kind xs.now ys.now }
{
    // The check does not follow `all` over a zip.
    for (x, y) in xs.iter().zip(ys) {
        if !does_job_simulate(kind, *x, *y) {
            return false;
        }
    }
    true
}

// Ready jobs agree; an idle wait is at most as long in the sporadic kind, and the same in the periodic kind.
fn does_job_simulate(kind: Kind, x: Job, y: Job) -> bool
    ensures { result ≡ simulates_job kind x y }
{
    match (x, y) {
        (Job::Idle { wait }, Job::Idle { wait: other }) => is_closer(kind, wait, other),
        _ => x == y,
    }
}

fn is_closer(kind: Kind, wait: u8, other: u8) -> bool
    ensures { result ≡ closer kind wait other }
{
    match kind {
        Kind::Sporadic => wait <= other,
        Kind::Periodic => wait == other,
    }
}
