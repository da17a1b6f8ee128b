// The program: reads the words of its command line and does what they ask.
#![tactic(auto)]

mod command_check;
mod command_run;
mod command_table;
mod faulty_file;
mod misuse;
mod setup;
mod source;
mod system_words;
mod trouble;
mod usage;

use command_check::check_table;
use command_run::run_events;
use command_table::print_table;
use command_words::command::Command;
use command_words::words::read_words;
use std::env;
use std::process::ExitCode;
use trouble::Trouble;
use usage::USAGE;

fn perform<'a>(rt: &HostRuntime, words: &[&'a str]) -> Result<ExitCode, Trouble<'a>> {
    match read_words(rt.alloc(), words)? {
        Command::Help => print!(rt; "{USAGE}")?,
        Command::Table(source) => print_table(rt, source)?,
        Command::Run {
            source,
            settings,
            events,
        } => run_events(rt, source, &settings, &events)?,
        Command::Check {
            source,
            settings,
            bounds,
        } => return check_table(rt, source, &settings, &bounds),
    }
    Ok(ExitCode::SUCCESS)
}

fn run(rt: &HostRuntime) -> Result<ExitCode, Trouble<'static>> {
    let heap = rt.alloc();
    let given: Vec<String> = env::args(rt)?.skip(1).collect(heap)?;
    let words: Vec<&str> = given.iter().map(|word| word.as_str()).collect(heap)?;
    // What is found wrong borrows the words, so it is told here; by a match, as a closure that holds the runtime gets no proof.
    match perform(rt, &words) {
        Ok(status) => Ok(status),
        Err(trouble) => Ok(tell(rt, &trouble)),
    }
}

// Where even the message finds no way out, the status still tells.
fn tell(rt: &HostRuntime, trouble: &Trouble<'_>) -> ExitCode {
    let _ = eprintln!(rt; "pethongu: {trouble}");
    ExitCode::FAILURE
}

fn main(rt: HostRuntime) -> ExitCode {
    match run(&rt) {
        Ok(status) => status,
        Err(trouble) => tell(&rt, &trouble),
    }
}
