// What the layer shows to the policy below.
ghost use Rattle.std.specs.Prelude.{◌≡◌, min, length, take};
ghost use Rattle.policies.specs.Layers.{short, shorts, shortened};
ghost use Rattle.policies.specs.Shows.{shortened_ready};

use crate::policy::Policy;
use crate::shortened::Shortened;
use job_state::State;
use task_table::mode::Mode;
use task_table::task::Task;

impl<P: Policy> Policy for Shortened<P> {
    ghost picks = { λ p tasks mode jobs. P.Policy.picks p.below (shortened p.deadlines.figures mode tasks) mode jobs };

    ghost ready = { λ p tasks mode jobs. shortened_ready p.deadlines.figures mode tasks jobs _ (P.Policy.ready p.below (shortened p.deadlines.figures mode tasks) mode jobs) };

    ghost blind = { λ p tasks mode xs ys h. P.Policy.blind p.below (shortened p.deadlines.figures mode tasks) mode xs ys h };

    #[tactic(auto, unfolding(crate::specs::Layers::shortened))]
    fn pick(&self, tasks: &[Task], state: &State) -> Option<usize> {
        match state.mode {
            Mode::Low => {
                // An array, as a table has room for eight tasks, and picking takes no memory.
                let mut shown = [Task::UNUSED; 8];
                shorten_all(&self.deadlines.figures, tasks, &mut shown);
                self.below.pick(&shown[..tasks.len().min(8)], state)
            }
            Mode::High => self.below.pick(tasks, state),
        }
    }
}

// The task with a deadline that is no later than the figure.
fn shorten(task: &Task, figure: u8) -> Task
    ensures { result ≡ short task.now figure }
{
    Task {
        deadline: task.deadline.min(figure),
        ..*task
    }
}

// Puts each task with its own figure into `shown`.
fn shorten_all(figures: &[u8], tasks: &[Task], shown: &mut [Task])
    requires figures { length figures.now ≡ 8 }
    requires room { length shown.old ≡ 8 }
    ensures { take (min (length tasks.now) 8) shown.new ≡ shorts figures.now tasks.now }
{
    // By number: after a zip with `iter_mut` nothing is known of what was written.
    for (i, (task, figure)) in tasks.iter().zip(figures).enumerate() {
        shown[i] = shorten(task, *figure);
    }
}
