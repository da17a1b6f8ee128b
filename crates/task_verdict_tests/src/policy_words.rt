// Policies by their names.
use policies::least::Least;
use policies::orders::{Deadline, Laxity, Ranks};
use policies::shortened::Deadlines;
use policies::{Choice, HighFirst, Order, Shortened};

const RANKS: [u8; 8] = [3, 1, 2, 0, 0, 0, 0, 0];

const DEADLINES: [u8; 8] = [9, 2, 3, 0, 0, 0, 0, 0];

fn order_named(word: &str) -> Option<Order> {
    let ranks = RANKS;
    match word {
        "fixed" => Some(Order::FixedOrder(Least {
            by: Ranks { figures: ranks },
        })),
        "deadline" => Some(Order::EarliestDeadline(Least { by: Deadline })),
        "laxity" => Some(Order::LeastLaxity(Least { by: Laxity })),
        _ => None,
    }
}

fn shortened(below: Order) -> Shortened<Order> {
    let figures = DEADLINES;
    Shortened {
        below,
        deadlines: Deadlines { figures },
    }
}

// The policy of an order with layers over it.
pub(crate) fn policy_named(order: &str, layers: &str) -> Option<Choice> {
    let order = order_named(order)?;
    match layers {
        "plain" => Some(Choice::Plain(order)),
        "high" => Some(Choice::HighFirst(HighFirst { below: order })),
        "short" => Some(Choice::Shortened(shortened(order))),
        "both" => Some(Choice::HighFirstShortened(HighFirst {
            below: shortened(order),
        })),
        _ => None,
    }
}
