// What the figures of a task mean in each mode and kind.
ghost use Rattle.std.specs.Prelude.{◌≡◌, ℤ, pos, negsuc, ◌-ℤ◌, ◌≤ℤ◌};
ghost use Rattle.jobs.specs.Tasks.{is_high, active, budget as budgeted, longest_wait, first_wait};
ghost use Rattle.jobs.specs.Jobs.{time_to_deadline, worst_laxity};

use crate::kind::Kind;
use task_table::mode::Mode;
use task_table::task::{Criticality, Task};

// Whether the task is of high criticality.
#[tactic(auto, unfolding(crate::specs::Tasks::is_high))]
pub fn is_high(task: &Task) -> bool
    ensures { result ≡ is_high task.now }
{
    task.criticality == Criticality::High
}

// The time to the deadline of the task's ready job, which has this wait: 0 or less where it is late.
pub fn time_to_deadline(task: &Task, wait: u8) -> i16
    ensures answers { result ≡ time_to_deadline task.now wait }
    ensures range { (negsuc 254 ≤ℤ result) × (result ≤ℤ pos 510) }
{
    i16::from(wait) - i16::from(task.period) + i16::from(task.deadline)
}

// The time that the task's ready job can spare if it needs all of its high budget: below 0 where it is doomed.
pub fn worst_laxity(mode: Mode, task: &Task, wait: u8, left: u8) -> i16
    ensures { result ≡ worst_laxity mode task.now wait left }
{
    let laxity = time_to_deadline(task, wait) - i16::from(left);
    match mode {
        Mode::Low => laxity - signed_gain(task),
        Mode::High => laxity,
    }
}

fn signed_gain(task: &Task) -> i16
    ensures answers { result ≡ pos task.now.budget_high -ℤ pos task.now.budget_low }
    ensures range { (negsuc 254 ≤ℤ result) × (result ≤ℤ pos 255) }
{
    i16::from(task.budget_high) - i16::from(task.budget_low)
}

pub(crate) fn is_active(mode: Mode, task: &Task) -> bool
    ensures { result ≡ active mode task.now }
{
    mode == Mode::Low || is_high(task)
}

pub(crate) fn budget(mode: Mode, task: &Task) -> u8
    ensures { result ≡ budgeted mode task.now }
{
    match mode {
        Mode::Low => task.budget_low,
        Mode::High => task.budget_high,
    }
}

pub(crate) fn longest_wait(kind: Kind, task: &Task) -> u8
    ensures { result ≡ longest_wait kind task.now }
{
    match kind {
        Kind::Sporadic => task.period,
        Kind::Periodic => task.period.max(task.offset),
    }
}

pub(crate) fn first_wait(kind: Kind, task: &Task) -> u8
    ensures { result ≡ first_wait kind task.now }
{
    match kind {
        Kind::Sporadic => 0,
        Kind::Periodic => task.offset,
    }
}
