// What the chosen policy picks.
ghost use Rattle.policies.specs.Choices.{order_picks, choice_picks};
ghost use Rattle.policies.specs.Choose.{order_ready, order_blind, choice_ready, choice_blind};

use crate::choice::{Choice, Order};
use crate::policy::Policy;
use job_state::State;
use task_table::task::Task;

impl Policy for Order {
    ghost picks = { order_picks };

    ghost ready = { λ p tasks mode jobs. order_ready p tasks mode jobs };

    ghost blind = { λ p tasks mode xs ys h. order_blind p tasks mode xs ys h };

    fn pick(&self, tasks: &[Task], state: &State) -> Option<usize> {
        match self {
            Order::FixedOrder(policy) => policy.pick(tasks, state),
            Order::EarliestDeadline(policy) => policy.pick(tasks, state),
            Order::LeastLaxity(policy) => policy.pick(tasks, state),
        }
    }
}

impl Policy for Choice {
    ghost picks = { choice_picks };

    ghost ready = { λ p tasks mode jobs. choice_ready p tasks mode jobs };

    ghost blind = { λ p tasks mode xs ys h. choice_blind p tasks mode xs ys h };

    fn pick(&self, tasks: &[Task], state: &State) -> Option<usize> {
        match self {
            Choice::Plain(policy) => policy.pick(tasks, state),
            Choice::HighFirst(policy) => policy.pick(tasks, state),
            Choice::Shortened(policy) => policy.pick(tasks, state),
            Choice::HighFirstShortened(policy) => policy.pick(tasks, state),
        }
    }
}
