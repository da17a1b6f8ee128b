// The options, by the words that name them.
ghost use Rattle.command_options.specs.Options.{key_word, flag_word};

use crate::named::Named;

// An option whose value is the next word.
#[derive(Clone, Copy, Debug, PartialEq, Eq)]
pub enum Key {
    Kind,
    Policy,
    Ranks,
    Shorten,
    Events,
    Nodes,
    Visits,
}

pub const KEYS: [Key; 7] = [
    Key::Kind,
    Key::Policy,
    Key::Ranks,
    Key::Shorten,
    Key::Events,
    Key::Nodes,
    Key::Visits,
];

impl Named for Key {
    ghost spelled = { key_word };

    fn word(&self) -> &'static str {
        match self {
            Key::Kind => "--kind",
            Key::Policy => "--policy",
            Key::Ranks => "--ranks",
            Key::Shorten => "--shorten",
            Key::Events => "--events",
            Key::Nodes => "--nodes",
            Key::Visits => "--visits",
        }
    }
}

// An option that stands alone.
#[derive(Clone, Copy, Debug, PartialEq, Eq)]
pub enum Flag {
    HighFirst,
    Porcelain,
    RequireSchedulable,
    Quiet,
}

pub const FLAGS: [Flag; 4] = [
    Flag::HighFirst,
    Flag::Porcelain,
    Flag::RequireSchedulable,
    Flag::Quiet,
];

impl Named for Flag {
    ghost spelled = { flag_word };

    fn word(&self) -> &'static str {
        match self {
            Flag::HighFirst => "--high-first",
            Flag::Porcelain => "--porcelain",
            Flag::RequireSchedulable => "--require-schedulable",
            Flag::Quiet => "--quiet",
        }
    }
}
