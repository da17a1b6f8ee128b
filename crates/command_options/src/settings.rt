// How a table is run.
ghost use Rattle.std.specs.Prelude.{◌≡◌};
ghost use Rattle.command_options.specs.Choices.{unchosen, loose_ranks, chosen_in};
ghost use Rattle.command_options.specs.Options.{kind_word, order_word};

use crate::named::Named;
use jobs::Kind;

// By which figure a policy picks.
#[derive(Clone, Copy, Debug, PartialEq, Eq)]
pub enum OrderName {
    Fixed,
    Deadline,
    Laxity,
}

#[derive(Debug, PartialEq, Eq, Drop)]
pub struct Settings {
    pub kind: Kind,
    pub order: OrderName,
    // the ranks of the fixed order
    pub ranks: Option<Vec<u8>>,
    pub high_first: bool,
    // the deadlines that the policy is shown in low mode
    pub shorten: Option<Vec<u8>>,
    // whether a script reads what is printed
    pub porcelain: bool,
}

impl Settings {
    // What is chosen without any option.
    pub fn new() -> Settings
        ensures { chosen_in result ≡ unchosen }
    {
        Settings {
            kind: Kind::Sporadic,
            order: OrderName::Deadline,
            ranks: None,
            high_first: false,
            shorten: None,
            porcelain: false,
        }
    }

    // Whether there are ranks, but no fixed order that goes by them.
    pub fn has_loose_ranks(&self) -> bool
        ensures { result ≡ loose_ranks (chosen_in self.now) }
    {
        self.ranks.is_some() && self.order != OrderName::Fixed
    }
}

pub const KINDS: [Kind; 2] = [Kind::Sporadic, Kind::Periodic];

impl Named for Kind {
    ghost spelled = { kind_word };

    fn word(&self) -> &'static str {
        match self {
            Kind::Sporadic => "sporadic",
            Kind::Periodic => "periodic",
        }
    }
}

pub const ORDERS: [OrderName; 3] = [OrderName::Fixed, OrderName::Deadline, OrderName::Laxity];

impl Named for OrderName {
    ghost spelled = { order_word };

    fn word(&self) -> &'static str {
        match self {
            OrderName::Fixed => "fixed",
            OrderName::Deadline => "deadline",
            OrderName::Laxity => "laxity",
        }
    }
}
