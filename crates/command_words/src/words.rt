// What all the words of a command line ask for.
ghost use Rattle.std.specs.Prelude.{◌≡◌, List, map};
ghost use Rattle.command_reading.specs.Misuses.{Says, then};
ghost use Rattle.command_reading.specs.Readings.{read_so_far};
ghost use Rattle.command_words.specs.Asks.{asked, alone, all_read, check_asked, command_heard, help, run_asked, table_asked};
ghost use Rattle.command_reading.specs.declared.verb.Verb.TheVariants.{Table, Run, Check};

use crate::command::Command;
use command_options::named::find_named;
use command_reading::misuse::Misuse;
use command_reading::reading::Reading;
use command_reading::verb::{VERBS, Verb};
use std::alloc::Global;
use table_source::Source;

// What the words behind the command say, to the last one.
fn read_all<'a>(heap: Global, verb: Verb, words: &[&'a str]) -> Result<Reading<'a>, Misuse<'a>>
    ensures { Says read_so_far (all_read verb (map (λ x. x.now) words.now)) result }
{
    let mut reading = Reading::new();
    reading.take_words(heap, verb, words)?;
    match reading.waiting {
        Some(key) => Err(Misuse::NoValue(key)),
        None => Ok(reading),
    }
}

// The command, where no word follows it.
fn help_command<'a>(words: &[&'a str]) -> Result<Command<'a>, Misuse<'a>>
    ensures { Says command_heard (alone help (map (λ x. x.now) words.now)) result }
{
    match words {
        [] => Ok(Command::Help),
        [word, ..] => Err(Misuse::OneTooMany(word)),
    }
}

fn table_command<'a>(heap: Global, words: &[&'a str]) -> Result<Command<'a>, Misuse<'a>>
    ensures { Says command_heard (then (all_read Table (map (λ x. x.now) words.now)) table_asked) result }
{
    let reading = read_all(heap, Verb::Table, words)?;
    Ok(Command::Table(reading.source.unwrap_or(Source::Input)))
}

fn run_command<'a>(heap: Global, words: &[&'a str]) -> Result<Command<'a>, Misuse<'a>>
    ensures { Says command_heard (then (all_read Run (map (λ x. x.now) words.now)) run_asked) result }
{
    let Reading {
        source,
        settings,
        events,
        ..
    } = read_all(heap, Verb::Run, words)?;
    let events = events.ok_or(Misuse::NoEvents)?;
    if settings.has_loose_ranks() {
        return Err(Misuse::RanksNeedFixed);
    }
    Ok(Command::Run {
        source: source.unwrap_or(Source::Input),
        settings,
        events,
    })
}

fn check_command<'a>(heap: Global, words: &[&'a str]) -> Result<Command<'a>, Misuse<'a>>
    ensures { Says command_heard (then (all_read Check (map (λ x. x.now) words.now)) check_asked) result }
{
    let Reading {
        source,
        settings,
        bounds,
        ..
    } = read_all(heap, Verb::Check, words)?;
    if settings.has_loose_ranks() {
        return Err(Misuse::RanksNeedFixed);
    }
    Ok(Command::Check {
        source: source.unwrap_or(Source::Input),
        settings,
        bounds,
    })
}

// The command that the words ask for; without words, help.
pub fn read_words<'a>(heap: Global, words: &[&'a str]) -> Result<Command<'a>, Misuse<'a>>
    ensures { Says command_heard (asked (map (λ x. x.now) words.now)) result }
{
    let [command, rest @ ..] = words else {
        return Ok(Command::Help);
    };
    match find_named(&VERBS, command) {
        Some(Verb::Help) => help_command(rest),
        Some(Verb::Table) => table_command(heap, rest),
        Some(Verb::Run) => run_command(heap, rest),
        Some(Verb::Check) => check_command(heap, rest),
        None => Err(Misuse::UnknownCommand(command)),
    }
}
