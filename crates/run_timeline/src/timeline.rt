// A run as a drawing.
use jobs::Job;
use std::fmt;
use task_runs::Tick;
use task_table::mode::Mode;
use task_table::task::Task;

// How many ticks are drawn beside one another.
const ACROSS: usize = 60;

// The ticks of a run, a column for each and a row for each task.
#[derive(Drop)]
pub struct Timeline<'a> {
    pub tasks: &'a [Task],
    pub ticks: &'a [Tick],
}

impl fmt::Display for Timeline<'_> {
    fn fmt<W: fmt::Write>(&self, f: &mut fmt::Formatter<W>) -> fmt::Result {
        for (i, columns) in self.ticks.chunks(ACROSS).enumerate() {
            draw(f, self.tasks, columns, i.saturating_mul(ACROSS))?;
        }
        writeln!(
            f,
            "R released and runs, # runs, r released and waits, - waits, . idle, x dropped"
        )
    }
}

// The ticks from that number on.
fn draw<W: fmt::Write>(
    f: &mut fmt::Formatter<W>,
    tasks: &[Task],
    columns: &[Tick],
    from: usize,
) -> fmt::Result {
    writeln!(f, "from tick {from}")?;
    draw_modes(f, columns)?;
    for (i, task) in tasks.iter().enumerate() {
        draw_task(f, i, task, columns)?;
    }
    Ok(())
}

fn draw_modes<W: fmt::Write>(f: &mut fmt::Formatter<W>, columns: &[Tick]) -> fmt::Result {
    write!(f, "  mode    ")?;
    for tick in columns {
        match tick.before.mode {
            Mode::Low => write!(f, "L")?,
            Mode::High => write!(f, "H")?,
        }
    }
    writeln!(f, "")
}

fn draw_task<W: fmt::Write>(
    f: &mut fmt::Formatter<W>,
    i: usize,
    task: &Task,
    columns: &[Tick],
) -> fmt::Result {
    let number = i.saturating_add(1);
    write!(f, "  task {number}  ")?;
    for tick in columns {
        let runs = tick.ran == Some(number);
        let sign = tick
            .before
            .jobs
            .get(i)
            .map_or(' ', |job| mark(task, *job, runs));
        write!(f, "{sign}")?;
    }
    writeln!(f, "")
}

// A job that has its whole period to wait was released at this very tick.
fn mark(task: &Task, job: Job, runs: bool) -> char {
    match job {
        Job::Ready { wait, .. } => match (runs, wait == task.period) {
            (true, true) => 'R',
            (true, false) => '#',
            (false, true) => 'r',
            (false, false) => '-',
        },
        Job::Dropped => 'x',
        Job::Idle { .. } | Job::Absent => '.',
    }
}
