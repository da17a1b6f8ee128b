// What is wrong with words that are no command.
use command_options::options::Key;

// The first word that cannot be understood, or what is missing at the end.
// Three cases stand in the smaller reader's misuse too: that as a part of this one would be matched and printed a level deeper.
#[derive(Clone, Copy, Debug, PartialEq, Eq)]
pub enum Misuse<'a> {
    UnknownCommand(&'a str),
    UnknownOption(&'a str),
    // another command has this option
    NotHere(&'a str),
    OneTooMany(&'a str),
    // the words end where the option's value should stand
    NoValue(Key),
    BadValue { option: Key, word: &'a str },
    NoEvents,
    RanksNeedFixed,
    NoMemory,
}
