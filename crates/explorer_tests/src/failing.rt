// The runs that show a lock unsafe: the last visit's events, and then the forced ones.
use crate::memory::{lent_nodes, lent_visits};
use canal_lock::Lock;
use lock_check::{Verdict, check_lock};
use std::alloc::Global;
use std::process::Abort;
use std::test::Fail;
use tracing::trace;
use transition::{Run, System};

// Makes the events, each of which must be accepted.
fn make(rt: &impl Abort, figures: &str, run: &mut Run<Lock>, events: &[u8]) {
    for event in events {
        assert_eq!(rt; run.call(*event), Ok(()), "{figures}");
    }
}

// Makes the forced events until there is none, and answers how many there were.
fn make_forced(rt: &impl Abort, figures: &str, run: &mut Run<Lock>) -> Result<u16, Fail> {
    // one more than the most forced events
    for made in 0..1152 {
        match run.forced() {
            Ok(event) => assert_eq!(rt; run.call(event), Ok(()), "{figures}"),
            Err(_) => return Ok(made),
        }
    }
    Err(Fail::new("too many forced events"))
}

// Replays the last visit's events and the forced ones after them: the lock's run must end late.
fn fails_so(
    rt: &impl Abort,
    heap: Global,
    figures: &str,
    lock: Lock,
    events: usize,
    forced: u16,
) -> Result<(), Fail> {
    let mut nodes = lent_nodes(heap, 64)?;
    let mut visits = lent_visits(heap, 128)?;
    let finding = check_lock(&lock, &mut nodes, &mut visits);
    assert_eq!(rt; finding.verdict, Verdict::Unsafe, "{figures}");
    let mut list = [0; 128];
    let count = trace(&visits, finding.visits, &mut list)?;
    assert_eq!(rt; count, events, "{figures}");
    assert!(rt; count <= 128, "{figures}");
    let mut run = Run::new(lock);
    make(rt, figures, &mut run, &list[0..count]);
    assert!(rt; run.is_doomed(), "{figures}");
    assert_eq!(rt; make_forced(rt, figures, &mut run)?, forced, "{figures}");
    assert!(rt; run.is_late(), "{figures}");
    Ok(())
}

#[test]
fn unsafe_locks_fail_so(rt: HostRuntime) -> Result<(), Fail> {
    fails_so(&rt, rt.alloc(), "5 5 4", Lock::new(5, 5, 4), 25, 4)?;
    fails_so(&rt, rt.alloc(), "5 2 4", Lock::new(5, 2, 4), 4, 4)?;
    fails_so(&rt, rt.alloc(), "0 0 0", Lock::new(0, 0, 0), 1, 0)
}
