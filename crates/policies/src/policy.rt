// A policy picks the ready task that runs next, or none.
ghost use Rattle.std.specs.Prelude.{◌≡◌, List, map};
ghost use Rattle.task_table.specs.declared.mode.Mode.{Mode};
ghost use Rattle.task_table.specs.declared.task.Task.{Task};
ghost use Rattle.jobs.specs.declared.job.Job.{Job};
ghost use Rattle.policies.specs.Picks.{Pick, seen, PicksReady};

use job_state::State;
use task_table::task::Task;

pub trait Policy {
    // What it picks, for any tasks and any jobs: a task's number, which counts from 1.
    ghost picks: { Self → Pick };

    // The number of the task that runs next; asking changes nothing.
    fn pick(&self, tasks: &[Task], state: &State) -> Option<usize>
        ensures picks { result ≡ picks self.now tasks.now state.now.mode state.now.jobs };

    // Nobody is picked, or a task that is ready.
    ghost ready: { (p : Self) (tasks : List Task) (mode : Mode) (jobs : List Job) → PicksReady tasks jobs (picks p tasks mode jobs) };

    // It looks at the mode, at who is ready, and at the wait and left of those, and at nothing else.
    ghost blind: { (p : Self) (tasks : List Task) (mode : Mode) (xs ys : List Job) → map seen xs ≡ map seen ys → picks p tasks mode xs ≡ picks p tasks mode ys };
}
