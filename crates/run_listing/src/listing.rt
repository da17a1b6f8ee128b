// A run in lines.
use crate::words::reason;
use arrayvec::ArrayString;
use job_state::State;
use numbered_refusals::Numbered;
use run_steps::Step;
use run_words::JobWord;
use std::fmt;
use std::fmt::Write;
use task_runs::{FINISHING_TICK, TICK, Tick, is_tick};
use task_table::mode::Mode;
use task_table::task::Task;

// The steps of a run from its first state on, with its ticks; those from `forced_from` on are forced events. Events may be
// refused for any reasons that have numbers.
#[derive(Drop)]
pub struct Listing<'a, R> {
    pub tasks: &'a [Task],
    pub first: State,
    pub steps: &'a [Step<State, R>],
    pub ticks: &'a [Tick],
    pub forced_from: usize,
}

impl<R: Numbered> fmt::Display for Listing<'_, R> {
    fn fmt<W: fmt::Write>(&self, f: &mut fmt::Formatter<W>) -> fmt::Result {
        write_head(f, self.tasks.len())?;
        write_state(f, 0, self.tasks.len(), &self.first)?;
        writeln!(f, "start")?;
        let mut before = self.first;
        // The clock counts ticks alone, so it is no place that `enumerate` gives.
        let mut clock = 0usize;
        for (i, step) in self.steps.iter().enumerate() {
            let ran = self.ran_at(step, clock);
            if is_tick(step) {
                clock = clock.saturating_add(1);
            }
            write_state(f, clock, self.tasks.len(), &step.state)?;
            write_event(f, step, ran, i >= self.forced_from)?;
            write_notes(f, self.tasks, &before, &step.state)?;
            writeln!(f, "")?;
            before = step.state;
        }
        writeln!(
            f,
            "i idle with its wait, r ready with its wait and time left, d dropped"
        )
    }
}

impl<R> Listing<'_, R> {
    // The task that ran at the step, where it is a tick.
    fn ran_at(&self, step: &Step<State, R>, clock: usize) -> Option<usize> {
        if !is_tick(step) {
            return None;
        }
        self.ticks.get(clock).and_then(|tick| tick.ran)
    }
}

fn write_head<W: fmt::Write>(f: &mut fmt::Formatter<W>, tasks: usize) -> fmt::Result {
    write!(f, "time  mode  ")?;
    for number in 1..=tasks.min(8) {
        write!(f, "task {number}    ")?;
    }
    writeln!(f, "event")
}

// The clock, the mode, and a word for each task.
fn write_state<W: fmt::Write>(
    f: &mut fmt::Formatter<W>,
    clock: usize,
    tasks: usize,
    state: &State,
) -> fmt::Result {
    let mode = state.mode;
    write!(f, "{clock:>4}  {mode:<4}  ")?;
    for job in state.jobs.iter().take(tasks) {
        // A text first, since a width pads no JobWord: at most 'r255/255', eight bytes.
        let mut word = ArrayString::<8>::new();
        write!(word, "{}", JobWord(*job))?;
        write!(f, "{word:<10}")?;
    }
    Ok(())
}

fn write_event<W: fmt::Write, R: Numbered>(
    f: &mut fmt::Formatter<W>,
    step: &Step<State, R>,
    ran: Option<usize>,
    forced: bool,
) -> fmt::Result {
    let event = step.event;
    write!(f, "{event}: ")?;
    if forced {
        write!(f, "forced ")?;
    }
    match event {
        1..=8 => write!(f, "release of task {event}")?,
        TICK => write!(f, "tick")?,
        FINISHING_TICK => write!(f, "finishing tick")?,
        _ => write!(f, "no event")?,
    }
    match &step.answer {
        Ok(()) => write_ran(f, event, ran),
        Err(refusal) => {
            let number = refusal.number();
            write!(f, ", refused with {number}: {}", reason(number))
        }
    }
}

fn write_ran<W: fmt::Write>(
    f: &mut fmt::Formatter<W>,
    event: u8,
    ran: Option<usize>,
) -> fmt::Result {
    match (event, ran) {
        (TICK, Some(number)) => write!(f, ", task {number} ran"),
        (TICK, None) => write!(f, ", nobody ran"),
        (FINISHING_TICK, Some(number)) => write!(f, ", task {number} ran and ended"),
        _ => Ok(()),
    }
}

// What is new in the state after a step.
fn write_notes<W: fmt::Write>(
    f: &mut fmt::Formatter<W>,
    tasks: &[Task],
    before: &State,
    after: &State,
) -> fmt::Result {
    if let (Mode::Low, Mode::High) = (before.mode, after.mode) {
        write!(f, "; the mode is high now")?;
    }
    let jobs = before.jobs.iter().zip(&after.jobs);
    for (number, (task, (was, is))) in (1..=8).zip(tasks.iter().zip(jobs)) {
        if is.is_late(task) && !was.is_late(task) {
            write!(f, "; task {number} is late")?;
        } else if is.is_doomed(after.mode, task) && !was.is_doomed(before.mode, task) {
            write!(
                f,
                "; from here task {number} cannot be kept from being late"
            )?;
        }
    }
    Ok(())
}
