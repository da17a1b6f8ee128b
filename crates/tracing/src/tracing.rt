// Tracing: the events that lead to a visit, read off the chain of visits back to its start.
ghost use Rattle.std.specs.Prelude.{◌≡◌, ℕ, ◌≤◌, List, length, take, drop, Some, Ok, Err};
ghost use Rattle.std.specs.Option.{option_map};
ghost use Rattle.exploration.specs.Traces.{sound, chained, traced, Chain};
ghost use Rattle.tracing.specs.Told.{counted, over_front, Justified};

use exploration::{TraceRefusal, Visit};

// Writes the events that lead to the visit of that number to the front of the list, first event first, and
// answers how many there are.
pub fn trace(visits: &[Visit], number: usize, list: &mut [u8]) -> Result<usize, TraceRefusal>
    ensures answers { result ≡ counted (traced visits.now number (length list.old)) }
    ensures leaves { list.new ≡ over_front (traced visits.now number (length list.old)) list.old }
    ensures tells_chain { (count : ℕ) → result ≡ Ok count → (count ≤ length list.old) × Chain visits.now number (take count list.new) × (drop count list.new ≡ drop count list.old) }
    ensures justified { Justified visits.now number (length list.old) result }
    ensures refusal_leaves { (refusal : TraceRefusal) → result ≡ Err refusal → list.new ≡ list.old }
{
    if number == 0 || number > visits.len() {
        return Err(TraceRefusal::NoSuchVisit);
    }
    let count = event_count(visits, number).ok_or(TraceRefusal::BrokenChain)?;
    if count > list.len() {
        return Err(TraceRefusal::ListTooShort);
    }
    write_events(visits, number, count, list);
    Ok(count)
}

// Whether the visit of that number can be part of a chain.
fn is_sound(number: usize, visit: Visit) -> bool
    ensures { result ≡ sound number visit }
{
    let is_right = if visit.parent == 0 {
        visit.event == 0
    } else {
        (1..=10).contains(&visit.event)
    };
    visit.parent < number && is_right
}

// How many events the chain that ends with the visit has, or none where the chain is broken.
fn event_count(visits: &[Visit], number: usize) -> Option<usize>
    requires { (1 ≤ number) × (number ≤ length visits.now) }
    ensures { result ≡ option_map length (chained visits.now number) }
{
    let mut count = 0;
    let mut at = number;
    // An iterator over the parents would owe its own laws, which are longer than this loop.
    loop {
        let visit = visits[at - 1];
        if !is_sound(at, visit) {
            return None;
        }
        if visit.parent == 0 {
            return Some(count);
        }
        count += 1;
        at = visit.parent;
    }
}

// Writes the events of an unbroken chain from its last to its first.
fn write_events(visits: &[Visit], number: usize, count: usize, list: &mut [u8])
    requires unbroken { option_map length (chained visits.now number) ≡ Some count }
    requires room { count ≤ length list.old }
    ensures { (es : List ℕ) → chained visits.now number ≡ Some es → list.new ≡ over_front (Ok es) list.old }
{
    let mut at = number;
    // By index: of what an adapter of `iter_mut` has written, no contract speaks.
    for i in (0..count).rev() {
        let visit = visits[at - 1];
        list[i] = visit.event;
        at = visit.parent;
    }
}
