// What a run and the lock refuse, and in which order.
use crate::words::{byte, chamber};
use canal_lock::Lock;
use numbered_refusals::told;
use std::process::Abort;
use std::test::Fail;
use transition::{Run, System};

// events of one run of a lock that is ready again after 5 ticks, with a gap of 2 and a patience of 4: what is
// answered, and then what a forced event is refused by
const RUN: &str = "9 4 16
0 4 16
2 0 16
1 0 16
1 1 16
2 0 16
1 2 16
2 0 16
1 0 0
1 1 0
3 4 0
2 0 0
2 0 0
2 0 0
2 0 3
2 3 3
9 3 3";

// Makes the event of one line, and compares the answers.
fn answers_so(rt: &impl Abort, run: &mut Run<Lock>, line: &str) -> Result<(), Fail> {
    let mut words = line.split_whitespace();
    let answer = told(&run.call(byte(&mut words)?));
    assert_eq!(rt; answer, byte(&mut words)?, "{line}");
    assert_eq!(rt; told(&run.forced()), byte(&mut words)?, "{line}");
    Ok(())
}

#[test]
fn run_answers_so(rt: HostRuntime) -> Result<(), Fail> {
    let mut run = Run::new(Lock::new(5, 2, 4));
    for line in RUN.lines() {
        answers_so(&rt, &mut run, line)?;
    }
    Ok(())
}

// chambers by turn, boat, wait and pause, and an event: what the event is refused by, and the forced event
const CHAMBERS: &str = "0 0 0 0 9 4 16
0 1 4 0 9 3 3
0 1 4 0 2 3 3
6 1 4 0 9 17 17
6 0 0 0 2 17 17
0 0 0 3 2 17 17
0 1 5 0 2 17 17
0 0 1 0 2 17 17
5 0 0 2 1 2 16
5 1 0 2 1 1 0
3 1 0 2 1 1 16";

// Asks the lock what one line asks, and compares the answers.
fn refuses_so(rt: &impl Abort, lock: &Lock, line: &str) -> Result<(), Fail> {
    let mut words = line.split_whitespace();
    let state = chamber(&mut words)?;
    let event = byte(&mut words)?;
    assert_eq!(rt;
        told(&lock.next(&state, event)),
        byte(&mut words)?,
        "{line}"
    );
    assert_eq!(rt;
        told(&lock.forced_event(&state)),
        byte(&mut words)?,
        "{line}"
    );
    Ok(())
}

#[test]
fn lock_refuses_in_order(rt: HostRuntime) -> Result<(), Fail> {
    let lock = Lock::new(5, 2, 4);
    for line in CHAMBERS.lines() {
        refuses_so(&rt, &lock, line)?;
    }
    Ok(())
}
