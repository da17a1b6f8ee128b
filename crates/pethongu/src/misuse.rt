// What is told of a command line that cannot be understood.
use command_options::named::Named;
use command_options::options::Key;
use command_reading::misuse::Misuse;
use std::fmt;

// What an option's value has to be.
fn wanted(option: Key) -> &'static str {
    match option {
        Key::Kind => "sporadic or periodic",
        Key::Policy => "fixed, deadline or laxity",
        Key::Ranks | Key::Shorten | Key::Events => {
            "numbers from 0 to 255 with commas between them"
        }
        Key::Nodes | Key::Visits => "a number from 0 to 1000000",
    }
}

#[derive(Clone, Copy, Debug)]
pub(crate) struct MisuseWords<'a>(pub(crate) Misuse<'a>);

impl fmt::Display for MisuseWords<'_> {
    fn fmt<W: fmt::Write>(&self, f: &mut fmt::Formatter<W>) -> fmt::Result {
        match self.0 {
            Misuse::UnknownCommand(word) => write!(f, "there is no command '{word}'")?,
            Misuse::UnknownOption(word) => write!(f, "there is no option '{word}'")?,
            Misuse::NotHere(word) => write!(f, "this command has no option '{word}'")?,
            Misuse::OneTooMany(word) => write!(f, "'{word}' is a word too many")?,
            Misuse::NoValue(option) => {
                write!(
                    f,
                    "{} has no value, expected {}",
                    option.word(),
                    wanted(option)
                )?;
            }
            Misuse::BadValue { option, word } => {
                write!(
                    f,
                    "{}: found '{word}', expected {}",
                    option.word(),
                    wanted(option)
                )?;
            }
            Misuse::NoEvents => write!(f, "'run' wants --events and their list")?,
            Misuse::RanksNeedFixed => write!(f, "--ranks can only stand with --policy fixed")?,
            // Not told from here: want of memory is a trouble of its own.
            Misuse::NoMemory => write!(f, "there is no memory left")?,
        }
        write!(f, "\n'pethongu help' tells what can be asked for")
    }
}
