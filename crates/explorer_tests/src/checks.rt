// The lock through all five ends, with exact counts.
use crate::memory::{lent_nodes, lent_visits};
use crate::words::{lock, number};
use canal_lock::Lock;
use lock_check::{Finding, Verdict, check_lock};
use std::alloc::Global;
use std::process::Abort;
use std::str::SplitWhitespace;
use std::test::Fail;

// fill, gap, patience, nodes lent, visits lent: the verdict, nodes left, visits left
const ENDS: &str = "5 6 4 64 128 safe 7 7
5 6 4 7 7 safe 7 7
5 6 4 6 128 nodes 6 7
5 6 4 64 6 visits 6 6
5 6 4 4096 65535 safe 7 7
5 6 4 4097 128 large 0 0
5 6 4 64 65536 large 0 0
5 6 4 0 0 visits 0 0
5 6 4 0 1 nodes 0 1
5 5 4 64 128 unsafe 16 26
5 5 4 16 26 unsafe 16 26
5 5 4 16 25 visits 16 25
5 2 4 64 128 unsafe 4 5
0 0 1 64 128 safe 2 2
3 0 4 64 128 safe 14 14
4 0 4 64 128 unsafe 3 4
0 0 0 64 128 unsafe 1 2";

fn verdict_named(word: &str) -> Option<Verdict> {
    match word {
        "safe" => Some(Verdict::Safe),
        "unsafe" => Some(Verdict::Unsafe),
        "nodes" => Some(Verdict::NodesFull),
        "visits" => Some(Verdict::VisitsFull),
        "large" => Some(Verdict::TooLarge),
        _ => None,
    }
}

// Checks a lock with so much memory lent.
fn found(heap: Global, lock: &Lock, nodes: usize, visits: usize) -> Result<Finding, Fail> {
    let mut nodes = lent_nodes(heap, nodes)?;
    let mut visits = lent_visits(heap, visits)?;
    Ok(check_lock(lock, &mut nodes, &mut visits))
}

// What the rest of the line says of the finding.
fn wanted(words: &mut SplitWhitespace<'_>) -> Result<Finding, Fail> {
    let word = words.next().ok_or("a word is missing")?;
    let verdict = verdict_named(word).ok_or("no such verdict")?;
    let nodes = number(words)?;
    let visits = number(words)?;
    Ok(Finding {
        verdict,
        nodes,
        visits,
    })
}

// Checks the lock of one line of the text, and compares what is found with the rest of the line.
fn ends_so(rt: &impl Abort, heap: Global, line: &str) -> Result<(), Fail> {
    let mut words = line.split_whitespace();
    let lock = lock(&mut words)?;
    let nodes = number(&mut words)?;
    let visits = number(&mut words)?;
    let finding = found(heap, &lock, nodes, visits)?;
    assert_eq!(rt; finding, wanted(&mut words)?, "{line}");
    Ok(())
}

#[test]
fn locks_end_so(rt: HostRuntime) -> Result<(), Fail> {
    for line in ENDS.lines() {
        ends_so(&rt, rt.alloc(), line)?;
    }
    Ok(())
}
