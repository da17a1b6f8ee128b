// Three figures, and the policies that go by them.
ghost use Rattle.std.specs.Prelude.{◌≡◌};
ghost use Rattle.policies.specs.Figures.{by_rank, by_deadline, by_laxity};

use crate::figure::Figure;
use crate::least::Least;
use crate::per_task::PerTask;
use jobs::figures::{time_to_deadline, worst_laxity};
use task_table::mode::Mode;
use task_table::task::Task;

// A stored rank for each task.
pub type Ranks = PerTask;

impl Figure for Ranks {
    ghost figured = { λ p _. by_rank p.figures };

    fn figure(
        &self,
        _mode: Mode,
        number: usize,
        _task: &Task,
        _wait: u8,
        _left: u8,
    ) -> Option<i16> {
        let rank = self.figures.get(number.saturating_sub(1)).copied();
        Some(i16::from(rank.unwrap_or(0)))
    }
}

// The time to the deadline.
#[derive(Clone, Copy, Debug)]
pub struct Deadline;

impl Figure for Deadline {
    ghost figured = { λ _ _. by_deadline };

    fn figure(&self, _mode: Mode, _number: usize, task: &Task, wait: u8, _left: u8) -> Option<i16> {
        Some(time_to_deadline(task, wait))
    }
}

// The worst laxity.
#[derive(Clone, Copy, Debug)]
pub struct Laxity;

impl Figure for Laxity {
    ghost figured = { λ _. by_laxity };

    fn figure(&self, mode: Mode, _number: usize, task: &Task, wait: u8, left: u8) -> Option<i16> {
        Some(worst_laxity(mode, task, wait, left))
    }
}

pub type FixedOrder = Least<Ranks>;

pub type EarliestDeadline = Least<Deadline>;

pub type LeastLaxity = Least<Laxity>;
