// The commands, by the words that name them.
ghost use Rattle.std.specs.Prelude.{◌≡◌};
ghost use Rattle.command_reading.specs.Verbs.{verb_word, has_settings, is_run, is_check, takes_key, takes_flag};

use command_options::named::Named;
use command_options::options::{Flag, Key};

#[derive(Clone, Copy, Debug, PartialEq, Eq)]
pub enum Verb {
    Help,
    Table,
    Run,
    Check,
}

pub const VERBS: [Verb; 4] = [Verb::Help, Verb::Table, Verb::Run, Verb::Check];

impl Named for Verb {
    ghost spelled = { verb_word };

    fn word(&self) -> &'static str {
        match self {
            Verb::Help => "help",
            Verb::Table => "table",
            Verb::Run => "run",
            Verb::Check => "check",
        }
    }
}

impl Verb {
    // Whether the command says how a table is run.
    fn has_settings(self) -> bool
        ensures { result ≡ has_settings self }
    {
        self.is_run() || self.is_check()
    }

    fn is_run(self) -> bool
        ensures { result ≡ is_run self }
    {
        self == Verb::Run
    }

    fn is_check(self) -> bool
        ensures { result ≡ is_check self }
    {
        self == Verb::Check
    }

    // Whether the command has this option.
    pub fn takes_key(self, key: Key) -> bool
        ensures { result ≡ takes_key self key }
    {
        match key {
            Key::Kind | Key::Policy | Key::Ranks | Key::Shorten => self.has_settings(),
            Key::Events => self.is_run(),
            Key::Nodes | Key::Visits => self.is_check(),
        }
    }

    // Whether the command has this option.
    pub fn takes_flag(self, flag: Flag) -> bool
        ensures { result ≡ takes_flag self flag }
    {
        match flag {
            Flag::HighFirst | Flag::Porcelain => self.has_settings(),
            Flag::RequireSchedulable | Flag::Quiet => self.is_check(),
        }
    }
}
