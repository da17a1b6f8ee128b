// The story of a check: the lock, the verdict, and the run that fails.
ghost use Rattle.std.specs.Prelude.{◌≡◌, length, take, IfOk};
ghost use Rattle.exploration.specs.Exploring.{explored};
ghost use Rattle.exploration.specs.Traces.{traced};
ghost use Rattle.tracing.specs.Told.{counted};
ghost use Rattle.canal_lock.specs.Locks.{meaning};
ghost use Rattle.lock_check.specs.Findings.{checked};

use crate::words::{Answer, Ended, Event, Found, Moment};
use canal_lock::{Chamber, Lock, TICK};
use exploration::TraceRefusal;
use explorer::{Node, Outcome, Visit, explore};
use lock_check::{Finding, check_lock};
use numbered_refusals::Numbered;
use std::io;
use tracing::trace;
use transition::{Run, System};

// From a doomed chamber no more forced events than this lead to an overdue boat: a `for` over them needs no proof that
// it ends, as `while let` would.
const MOST_FORCED: u16 = 1151;

// Checks the lock, and tells its figures, the verdict, and how many chambers are kept and visited.
pub fn tell_check(
    rt: &impl Print,
    lock: &Lock,
    nodes: &mut [Node<Chamber>],
    visits: &mut [Visit],
) -> io::Result<Finding>
    ensures { IfOk result (λ finding. (finding.verdict, take finding.nodes nodes.new, take finding.visits visits.new) ≡ checked lock.now (length nodes.old) (length visits.old)) }
{
    tell_figures(rt, lock)?;
    let finding = check_lock(lock, nodes, visits);
    let found = Found(finding.verdict);
    let kept_nodes = finding.nodes;
    let made_visits = finding.visits;
    println!(rt; "It is {found}.")?;
    println!(rt; "Chambers kept: {kept_nodes}, chambers visited: {made_visits}.")?;
    Ok(finding)
}

// Tells the figures of the lock.
fn tell_figures(rt: &impl Print, lock: &Lock) -> io::Result<()> {
    let fill = lock.fill();
    let gap = lock.gap();
    let patience = lock.patience();
    println!(rt;
        "A boat goes through a ready chamber in one tick, and then the chamber takes {fill} ticks to be ready again."
    )?;
    println!(rt; "The next boat may come {gap} ticks after the one before.")?;
    println!(rt; "A boat that has waited {patience} ticks is overdue.")
}

// Explores the lock, and tells how that ends with so much memory lent.
pub fn tell_end(
    rt: &impl Print,
    lock: &Lock,
    nodes: &mut [Node<Chamber>],
    visits: &mut [Visit],
) -> io::Result<Outcome>
    ensures { IfOk result (λ outcome. outcome ≡ (explored (meaning lock.now) (length nodes.old) (length visits.old)).0) }
{
    let lent_nodes = nodes.len();
    let lent_visits = visits.len();
    let (outcome, _, _) = explore(lock, nodes, visits);
    print!(rt; "With {lent_nodes} nodes and {lent_visits} visits lent: ")?;
    tell_outcome(rt, outcome)?;
    Ok(outcome)
}

// Tells the outcome, with its number where nothing is decided.
fn tell_outcome(rt: &impl Print, outcome: Outcome) -> io::Result<()> {
    let ended = Ended(outcome);
    match outcome.number() {
        Some(number) => println!(rt; "refusal {number}, {ended}."),
        None => println!(rt; "{ended}."),
    }
}

// Traces the visit, replays its events on a new run, makes the forced events that follow, and answers what
// tracing answered.
pub fn tell_failing_run(
    rt: &impl Print,
    lock: &Lock,
    visits: &[Visit],
    number: usize,
) -> io::Result<Result<usize, TraceRefusal>>
    ensures { IfOk result (λ told. told ≡ counted (traced visits.now number 256)) }
{
    let mut events = [0; 256];
    let told = trace(visits, number, &mut events);
    match told {
        Ok(count) => tell_replay(rt, lock, number, &events[0..count])?,
        Err(refusal) => println!(rt; "The trace is refusal {}.", refusal.number())?,
    }
    Ok(told)
}

// Makes the events that lead to the visit, and the forced ones after them, on a new run.
fn tell_replay(rt: &impl Print, lock: &Lock, number: usize, events: &[u8]) -> io::Result<()> {
    let mut run = Run::new(*lock);
    println!(rt; "The events that lead to visit {number}:")?;
    tell_events(rt, &mut run, events)?;
    println!(rt; "The forced events after them:")?;
    tell_forced(rt, &mut run)
}

// Makes the events one after another.
fn tell_events(rt: &impl Print, run: &mut Run<Lock>, events: &[u8]) -> io::Result<()> {
    for event in events {
        tell_event(rt, run, *event)?;
    }
    Ok(())
}

// Makes the forced events until there is none, and tells whether a boat is overdue then.
fn tell_forced(rt: &impl Print, run: &mut Run<Lock>) -> io::Result<()> {
    for _ in 0..MOST_FORCED {
        let Ok(event) = run.forced() else {
            break;
        };
        tell_event(rt, run, event)?;
    }
    if run.is_late() {
        println!(rt; "The boat is overdue, and nothing happens any more:")?;
        tell_event(rt, run, TICK)
    } else {
        println!(rt; "No boat is overdue.")
    }
}

// Makes one event, and tells its answer and the chamber after it.
fn tell_event(rt: &impl Print, run: &mut Run<Lock>, event: u8) -> io::Result<()> {
    let answer = Answer(run.call(event));
    let event = Event(event);
    let moment = Moment(*run.state());
    println!(rt; "  {event}: {answer}; {moment}")
}
