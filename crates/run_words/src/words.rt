// Modes, jobs and answers in short words.
ghost use Rattle.std.specs.Prelude.{Some};
ghost use Rattle.run_words.specs.Words.{mode_word, job_word};

use job_state::State;
use jobs::Job;
use std::fmt;
use task_table::mode::Mode;

// A mode as scripts read it, in capitals; its own Display is for people.
#[derive(Clone, Copy)]
pub struct ModeWord(pub Mode);

impl fmt::Display for ModeWord {
    ghost output = { λ x. Some (mode_word x.0) };

    fn fmt<W: fmt::Write>(&self, f: &mut fmt::Formatter<W>) -> fmt::Result {
        match self.0 {
            Mode::Low => write!(f, "LOW"),
            Mode::High => write!(f, "HIGH"),
        }
    }
}

// A job as scripts read it: `i` and the wait, `r` with wait and time left, `d`, or nothing where there is no task.
#[derive(Clone, Copy)]
pub struct JobWord(pub Job);

impl fmt::Display for JobWord {
    ghost output = { λ x. Some (job_word x.0) };

    fn fmt<W: fmt::Write>(&self, f: &mut fmt::Formatter<W>) -> fmt::Result {
        match self.0 {
            Job::Absent => write!(f, ""),
            Job::Idle { wait } => write!(f, "i{wait}"),
            Job::Ready { wait, left } => write!(f, "r{wait}/{left}"),
            Job::Dropped => write!(f, "d"),
        }
    }
}

// A state as scripts read it: the mode, and a word for each of so many tasks.
#[derive(Clone, Copy)]
pub struct StateWords {
    pub tasks: usize,
    pub state: State,
}

impl fmt::Display for StateWords {
    fn fmt<W: fmt::Write>(&self, f: &mut fmt::Formatter<W>) -> fmt::Result {
        write!(f, "{}", ModeWord(self.state.mode))?;
        for job in self.state.jobs.iter().take(self.tasks) {
            write!(f, " {}", JobWord(*job))?;
        }
        Ok(())
    }
}
