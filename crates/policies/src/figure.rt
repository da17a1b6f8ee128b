// By what ready jobs are compared.
ghost use Rattle.std.specs.Prelude.{◌≡◌};
ghost use Rattle.task_table.specs.declared.mode.Mode.{Mode};
ghost use Rattle.policies.specs.Leasts.{Figured, figure_of};

use jobs::Job;
use task_table::mode::Mode;
use task_table::task::Task;

// The least figure comes first; a job without a figure is passed over.
// A trait, and no closure: policies hold their figure by value, and contracts speak of its meaning.
pub trait Figure {
    ghost figured: { Self → Mode → Figured };

    // Each part by itself, so that an impl shows by `_` what it does not look at.
    fn figure(&self, mode: Mode, number: usize, task: &Task, wait: u8, left: u8) -> Option<i16>
        ensures { result ≡ figured self.now mode number task.now wait left };
}

// Only a ready job has a figure.
pub(crate) fn figure_of<F: Figure>(
    by: &F,
    mode: Mode,
    number: usize,
    task: &Task,
    job: Job,
) -> Option<i16>
    ensures { result ≡ figure_of (F.Figure.figured by.now mode) number task.now job }
{
    match job {
        Job::Ready { wait, left } => by.figure(mode, number, task, wait, left),
        _ => None,
    }
}
