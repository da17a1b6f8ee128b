// Commands, and what is wrong with words that are none.
ghost use Rattle.std.specs.Prelude.{◌≡◌, map};
ghost use Rattle.commands.specs.Asks.{asked, alone, command_heard, heard, table_of};

use table_source::{Source, is_option};

#[derive(Clone, Copy, Debug, PartialEq, Eq)]
pub enum Command<'a> {
    Help,
    Table(Source<'a>),
}

// The first word that cannot be understood.
#[derive(Clone, Copy, Debug, PartialEq, Eq)]
pub enum Misuse<'a> {
    UnknownCommand(&'a str),
    UnknownOption(&'a str),
    OneTooMany(&'a str),
}

// The command, where no word follows it.
fn alone<'a>(command: Command<'a>, rest: &[&'a str]) -> Result<Command<'a>, Misuse<'a>>
    ensures { heard result ≡ alone (command_heard command.entry) (map (λ x. x.now) rest.now) }
{
    match rest {
        [] => Ok(command),
        [word, ..] => Err(Misuse::OneTooMany(word)),
    }
}

// What the words behind 'table' ask for.
fn table_command<'a>(rest: &[&'a str]) -> Result<Command<'a>, Misuse<'a>>
    ensures { heard result ≡ table_of (map (λ x. x.now) rest.now) }
{
    match rest {
        [] => Ok(Command::Table(Source::Input)),
        [word, ..] if is_option(word) => Err(Misuse::UnknownOption(word)),
        [word, more @ ..] => alone(Command::Table(Source::named(word)), more),
    }
}

// The command that the words ask for; without words, help.
pub fn read_words<'a>(words: &[&'a str]) -> Result<Command<'a>, Misuse<'a>>
    ensures { heard result ≡ asked (map (λ x. x.now) words.now) }
{
    let [command, rest @ ..] = words else {
        return Ok(Command::Help);
    };
    match *command {
        "help" => alone(Command::Help, rest),
        "table" => table_command(rest),
        word => Err(Misuse::UnknownCommand(word)),
    }
}
