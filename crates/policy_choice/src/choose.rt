// Orders and layers as settings name them.
ghost use Rattle.std.specs.Prelude.{◌≡◌, IfOk};
ghost use Rattle.std.specs.Option.{option_map};
ghost use Rattle.command_options.specs.Choices.{chosen_in};
ghost use Rattle.policy_choice.specs.Chooses.{Says, order_seen, choice_seen, selected_ranks, selected_order, selected_deadlines, selected, layers};
ghost use Rattle.policy_choice.specs.Picked.{PicksSo};

use crate::eight::one_each;
use crate::wrong_count::WrongCount;
use command_options::options::Key;
use command_options::settings::{OrderName, Settings};
use policies::least::Least;
use policies::orders::{Deadline, Laxity, Ranks};
use policies::shortened::Deadlines;
use policies::{Choice, HighFirst, Order, Shortened};

// Without ranks the tasks go by the order of their rows.
const ROWS: [u8; 8] = [1, 2, 3, 4, 5, 6, 7, 8];

fn selected_ranks(settings: &Settings, tasks: usize) -> Result<Ranks, WrongCount>
    ensures { Says (λ p. p.figures) (selected_ranks (chosen_in settings.now) tasks) result }
{
    // A match: a closure before the question mark is no plainer.
    let figures = match &settings.ranks {
        Some(numbers) => one_each(Key::Ranks, numbers, tasks)?,
        None => ROWS,
    };
    Ok(Ranks { figures })
}

fn selected_order(settings: &Settings, tasks: usize) -> Result<Order, WrongCount>
    ensures { Says order_seen (selected_order (chosen_in settings.now) tasks) result }
{
    match settings.order {
        OrderName::Fixed => {
            let by = selected_ranks(settings, tasks)?;
            Ok(Order::FixedOrder(Least { by }))
        }
        OrderName::Deadline => Ok(Order::EarliestDeadline(Least { by: Deadline })),
        OrderName::Laxity => Ok(Order::LeastLaxity(Least { by: Laxity })),
    }
}

fn selected_deadlines(settings: &Settings, tasks: usize) -> Result<Option<Deadlines>, WrongCount>
    ensures { Says (option_map (λ d. d.figures)) (selected_deadlines (chosen_in settings.now) tasks) result }
{
    // A match: by `map` and `transpose` this takes two closures beside the `?`, and is no plainer.
    match &settings.shorten {
        Some(numbers) => {
            let figures = one_each(Key::Shorten, numbers, tasks)?;
            Ok(Some(Deadlines { figures }))
        }
        None => Ok(None),
    }
}

// The order with the layers over it.
fn layered(order: Order, high_first: bool, deadlines: Option<Deadlines>) -> Choice
    ensures { choice_seen result ≡ layers (order_seen order) high_first (option_map (λ d. d.figures) deadlines) }
{
    match (high_first, deadlines) {
        (false, None) => Choice::Plain(order),
        (true, None) => Choice::HighFirst(HighFirst { below: order }),
        (false, Some(deadlines)) => Choice::Shortened(Shortened {
            below: order,
            deadlines,
        }),
        (true, Some(deadlines)) => {
            let below = Shortened {
                below: order,
                deadlines,
            };
            Choice::HighFirstShortened(HighFirst { below })
        }
    }
}

// The policy that the settings name for a table with that many tasks.
pub fn choose_policy(settings: &Settings, tasks: usize) -> Result<Choice, WrongCount>
    ensures selects { Says choice_seen (selected (chosen_in settings.now) tasks) result }
    ensures picks { IfOk result PicksSo }
{
    let order = selected_order(settings, tasks)?;
    let deadlines = selected_deadlines(settings, tasks)?;
    Ok(layered(order, settings.high_first, deadlines))
}
