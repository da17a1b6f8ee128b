// The ready task of the least figure, and the lowest number among equals.
ghost use Rattle.std.specs.Prelude.{◌≡◌};
ghost use Rattle.policies.specs.Leasts.{best as best_of, least, Least as Leasts};
ghost use Rattle.policies.specs.Chosen.{least_ready};
ghost use Rattle.policies.specs.Bests.{least_blind};

use crate::best::Best;
use crate::figure::{Figure, figure_of};
use crate::policy::Policy;
use job_state::State;
use jobs::Job;
use task_table::mode::Mode;
use task_table::task::Task;

// The least figure and whose it is: the earlier of two equals stays.
#[tactic(auto, using(crate::specs::Bests::best_end))]
pub fn best<F: Figure>(by: &F, mode: Mode, tasks: &[Task], jobs: &[Job]) -> Option<Best>
    ensures { result ≡ best_of (F.Figure.figured by.now mode) 0 tasks.now jobs.now }
{
    // The check does not follow `min_by_key` over a zip.
    let mut best: Option<Best> = None;
    for (i, (task, job)) in tasks.iter().zip(jobs).enumerate() {
        let number = i + 1;
        if let Some(figure) = figure_of(by, mode, number, task, *job) {
            let found = Best { number, figure };
            best = Some(best.map_or(found, |earlier| earlier.or_less(found)));
        }
    }
    best
}

// The policy that picks the least figure.
#[derive(Clone, Copy, Debug)]
pub struct Least<F> {
    pub by: F,
}

impl<F: Figure> Policy for Least<F> {
    ghost picks = { λ p tasks mode jobs. least (F.Figure.figured p.by mode) tasks jobs };

    ghost ready = { λ p tasks mode jobs. least_ready (F.Figure.figured p.by mode) tasks jobs };

    ghost blind = { λ p tasks mode xs ys h. least_blind (F.Figure.figured p.by mode) tasks xs ys h };

    fn pick(&self, tasks: &[Task], state: &State) -> Option<usize>
        ensures picks { result ≡ least (F.Figure.figured self.now.by state.now.mode) tasks.now state.now.jobs }
        ensures least { Leasts (F.Figure.figured self.now.by state.now.mode) tasks.now state.now.jobs result }
    {
        best(&self.by, state.mode, tasks, &state.jobs).map(|best| best.number)
    }
}
