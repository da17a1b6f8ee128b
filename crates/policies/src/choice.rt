// A policy that is chosen at run time.
mod picks;

use crate::high_first::HighFirst;
use crate::orders::{EarliestDeadline, FixedOrder, LeastLaxity};
use crate::shortened::Shortened;

// The figure that is gone by. An enum, and no `dyn Policy`: it is `Copy`, and its meaning is told case by case.
#[derive(Clone, Copy, Debug)]
pub enum Order {
    FixedOrder(FixedOrder),
    EarliestDeadline(EarliestDeadline),
    LeastLaxity(LeastLaxity),
}

// The layers over it, an enum for the same reasons.
#[derive(Clone, Copy, Debug)]
pub enum Choice {
    Plain(Order),
    HighFirst(HighFirst<Order>),
    Shortened(Shortened<Order>),
    HighFirstShortened(HighFirst<Shortened<Order>>),
}
