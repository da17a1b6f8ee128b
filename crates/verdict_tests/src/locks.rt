// The verdict on locks of a canal, which have nothing to do with tasks.
use canal_lock::Lock;
use explorer::{Node, Visit};
use std::alloc::Global;
use std::process::Abort;
use std::test::Fail;
use transition::System;
use verdict::{Failure, Judgement, Verdict, is_ever_late, judge, run_after};

fn judged(heap: Global, lock: &Lock) -> Result<Judgement<Failure<Lock>>, Fail> {
    // Not START: exploring is to look at no visit that it did not write.
    let visit = Visit {
        parent: 9,
        event: 9,
    };
    let mut nodes = [Node::unused(lock.first()); 64];
    let mut visits = [visit; 128];
    Ok(judge(heap, lock, &mut nodes, &mut visits)?)
}

// The lock fails by so many events and so many forced ones, and the same calls make another run late too.
fn fails_so(
    rt: &impl Abort,
    heap: Global,
    figures: &str,
    lock: Lock,
    events: usize,
    forced: usize,
) -> Result<(), Fail> {
    let judgement = judged(heap, &lock)?;
    let Verdict::Unschedulable(failure) = judgement.verdict else {
        return Err(Fail::new("not unschedulable"));
    };
    assert_eq!(rt; failure.events.len(), events, "{figures}");
    assert_eq!(rt; failure.forced.len(), forced, "{figures}");
    assert!(rt; failure.run.is_late(), "{figures}");
    let mut calls = failure.events.clone()?;
    calls.extend_from_slice(&failure.forced)?;
    assert!(rt; run_after(lock, &calls).is_late(), "{figures}");
    assert!(rt; is_ever_late(lock, &calls), "{figures}");
    assert!(rt;
        !is_ever_late(lock, &failure.events) || forced == 0,
        "{figures}"
    );
    Ok(())
}

#[test]
fn locks_fail_so(rt: HostRuntime) -> Result<(), Fail> {
    fails_so(&rt, rt.alloc(), "5 5 4", Lock::new(5, 5, 4), 25, 4)?;
    fails_so(&rt, rt.alloc(), "5 2 4", Lock::new(5, 2, 4), 4, 4)?;
    fails_so(&rt, rt.alloc(), "0 0 0", Lock::new(0, 0, 0), 1, 0)
}

#[test]
fn a_prompt_lock_never_fails(rt: HostRuntime) -> Result<(), Fail> {
    let lock = Lock::new(5, 6, 4);
    let judgement = judged(rt.alloc(), &lock)?;
    assert!(rt; matches!(judgement.verdict, Verdict::Schedulable));
    assert_eq!(rt; judgement.nodes, 7);
    assert_eq!(rt; judgement.visits, 7);
    assert!(rt; !is_ever_late(lock, &[1, 1, 2, 2, 2, 9, 2, 2, 2, 1, 2, 0, 2]));
    Ok(())
}
