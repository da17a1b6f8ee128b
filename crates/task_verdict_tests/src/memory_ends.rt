// Tables through all five ends, with as much memory lent as is said.
use crate::cases::end_so;
use std::test::Fail;

// the rows; kind, order and layers of the policy, nodes and visits lent => the verdict, nodes and visits in use
const CASES: &str = "L 2 2 1 1 0; sporadic deadline plain 64 128 => schedulable 2 2
H 3 3 2 3 0|L 3 3 2 2 0; sporadic deadline plain 64 128 => unschedulable 11 12 by 1 2 9 10 then 9 late 2
H 3 3 2 3 0|L 3 3 2 2 0; sporadic deadline plain 11 12 => unschedulable 11 12 by 1 2 9 10 then 9 late 2
H 3 3 2 3 0|L 3 3 2 2 0; sporadic deadline plain 10 128 => nodes 10 11
H 3 3 2 3 0|L 3 3 2 2 0; sporadic deadline plain 64 11 => visits 11 11
; sporadic deadline plain 64 128 => schedulable 1 1
L 2 2 1 1 0; sporadic deadline plain 0 128 => nodes 0 1
L 2 2 1 1 0; sporadic deadline plain 64 0 => visits 0 0
L 2 2 1 1 0; sporadic deadline plain 4096 65535 => schedulable 2 2
L 2 2 1 1 0; sporadic deadline plain 4097 128 => large 0 0
L 2 2 1 1 0; sporadic deadline plain 64 65536 => large 0 0
L 2 2 1 1 0; periodic deadline plain 64 128 => schedulable 3 3
L 2 2 1 1 0; periodic deadline plain 2 128 => nodes 2 3
H 3 3 2 3 0|L 3 3 2 2 0; periodic deadline plain 64 128 => unschedulable 7 8 by 1 2 9 10 then 9 late 2
H 3 3 2 3 0|L 3 3 2 2 0; periodic deadline plain 64 7 => visits 7 7";

#[test]
fn memory_ends_so(rt: HostRuntime) -> Result<(), Fail> {
    end_so(&rt, rt.alloc(), CASES)
}
