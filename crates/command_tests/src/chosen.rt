// Which policies are chosen for tables with several tasks.
use command_words::command::Command;
use command_words::words::read_words;
use policies::{Choice, Order};
use policy_choice::choose_policy;
use std::alloc::Global;
use std::test::Fail;

// The number of tasks, options of 'run', and the policy that is chosen for them.
const CHOSEN: &str = "\
3 --policy fixed => fixed
3 --policy fixed --ranks 3,1,2 => fixed
8 --policy fixed --ranks 8,7,6,5,4,3,2,1 => fixed
2 --policy fixed --ranks 3,1,2 => refused
9 --policy fixed --ranks 1,2,3,4,5,6,7,8,9 => refused
0 --policy laxity => laxity
0 --high-first => deadline, high first
2 --shorten 5,6 => deadline, shortened
2 --shorten 5 => refused
2 --high-first --shorten 5,6 => deadline, high first, shortened
";

fn order_told(order: Order) -> &'static str {
    match order {
        Order::FixedOrder(_) => "fixed",
        Order::EarliestDeadline(_) => "deadline",
        Order::LeastLaxity(_) => "laxity",
    }
}

fn told(heap: Global, choice: Choice) -> Result<String, Fail> {
    let (order, layers) = match choice {
        Choice::Plain(order) => (order, ""),
        Choice::HighFirst(layer) => (layer.below, ", high first"),
        Choice::Shortened(layer) => (layer.below, ", shortened"),
        Choice::HighFirstShortened(layer) => (layer.below.below, ", high first, shortened"),
    };
    let order = order_told(order);
    Ok(format!(in heap; "{order}{layers}")?)
}

fn chosen(heap: Global, case: &str) -> Result<String, Fail> {
    let (tasks, options) = case.split_once(" ").ok_or("no count")?;
    let mut words = vec![in heap; "run", "--events", "1"]?;
    words.extend(options.split_whitespace())?;
    let Ok(Command::Run { settings, .. }) = read_words(heap, &words) else {
        return Err(Fail::new("no run"));
    };
    match choose_policy(&settings, tasks.parse::<usize>()?) {
        Ok(choice) => told(heap, choice),
        Err(_) => Ok(format!(in heap; "refused")?),
    }
}

#[test]
fn chosen_so(rt: HostRuntime) -> Result<(), Fail> {
    for case in CHOSEN.lines() {
        let (asked, wanted) = case.split_once(" => ").ok_or("no arrow")?;
        assert_eq!(rt; chosen(rt.alloc(), asked)?.as_str(), wanted, "{}", case);
    }
    Ok(())
}
