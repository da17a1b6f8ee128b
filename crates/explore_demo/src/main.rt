// Explores two canal locks, and then one of them with too little and with too much memory.
#![tactic(auto)]

use canal_lock::{Chamber, Lock};
use explorer::{Node, Visit};
use lock_story::{tell_check, tell_end, tell_failing_run};
use std::io;

// A lock that is slow, but boats come seldom enough.
fn show_safe(rt: &impl Print, lock: &Lock) -> io::Result<()> {
    println!(rt; "== A slow lock where boats come seldom ==")?;
    let mut nodes = [Node::unused(Chamber::CALM); 64];
    let mut visits = [Visit::START; 128];
    tell_check(rt, lock, &mut nodes, &mut visits)?;
    Ok(())
}

// The same lock where boats may follow each other sooner, and the run that shows it unsafe.
fn show_unsafe(rt: &impl Print, lock: &Lock) -> io::Result<()> {
    println!(rt; "== The same lock where boats come sooner ==")?;
    let mut nodes = [Node::unused(Chamber::CALM); 64];
    let mut visits = [Visit::START; 128];
    let finding = tell_check(rt, lock, &mut nodes, &mut visits)?;
    let _ = tell_failing_run(rt, lock, &visits, finding.visits)?;
    Ok(())
}

// The ends that decide nothing, as the memory is too small or too large.
fn show_ends(rt: &impl Print, lock: &Lock) -> io::Result<()> {
    println!(rt; "== The first lock with other memory ==")?;
    let node = Node::unused(Chamber::CALM);
    tell_end(rt, lock, &mut [node; 4], &mut [Visit::START; 128])?;
    tell_end(rt, lock, &mut [node; 64], &mut [Visit::START; 5])?;
    tell_end(rt, lock, &mut [node; 4097], &mut [Visit::START; 128])?;
    tell_end(rt, lock, &mut [node; 7], &mut [Visit::START; 7])?;
    Ok(())
}

fn main(rt: HostRuntime) -> io::Result<()> {
    let seldom = Lock::new(5, 6, 4);
    let sooner = Lock::new(5, 5, 4);
    println!(rt;
        "Boats come to a lock in any order that its figures allow: can one wait too long?"
    )?;
    show_safe(&rt, &seldom)?;
    show_unsafe(&rt, &sooner)?;
    show_ends(&rt, &seldom)
}
