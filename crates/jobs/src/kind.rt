// How jobs come.
#[derive(Clone, Copy, Debug, PartialEq, Eq)]
pub enum Kind {
    // at any time, a period or more after one another
    Sporadic,
    // as soon as the wait is over, the first after the offset
    Periodic,
}
