// The kind and the policy in words.
use command_options::named::Named;
use command_options::settings::{OrderName, Settings};
use std::fmt;

#[derive(Drop)]
pub(crate) struct SystemWords<'a>(pub(crate) &'a Settings);

impl fmt::Display for SystemWords<'_> {
    fn fmt<W: fmt::Write>(&self, f: &mut fmt::Formatter<W>) -> fmt::Result {
        let kind = self.0.kind.word();
        let order = match self.0.order {
            OrderName::Fixed => "fixed order",
            OrderName::Deadline => "earliest deadline first",
            OrderName::Laxity => "least worst laxity first",
        };
        let first = if self.0.high_first {
            ", high tasks first in low mode"
        } else {
            ""
        };
        let shorten = if self.0.shorten.is_some() {
            ", deadlines shortened in low mode"
        } else {
            ""
        };
        write!(f, "{kind} releases, {order}{first}{shorten}")
    }
}
