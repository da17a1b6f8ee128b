// Both kinds under every policy, with and without layers.
use crate::cases::end_so;
use std::test::Fail;

// the rows; kind, order and layers of the policy, nodes and visits lent => the verdict, nodes and visits in use
const CASES: &str = "H 4 4 3 3 1|L 5 3 1 1 2; sporadic fixed plain 128 512 => schedulable 11 11
H 4 4 3 3 1|L 5 3 1 1 2; sporadic fixed high 128 512 => unschedulable 13 15 by 1 2 9 9 9 then late 2
H 4 4 3 3 1|L 5 3 1 1 2; sporadic fixed short 128 512 => schedulable 11 11
H 4 4 3 3 1|L 5 3 1 1 2; sporadic fixed both 128 512 => unschedulable 13 15 by 1 2 9 9 9 then late 2
H 4 4 3 3 1|L 5 3 1 1 2; sporadic deadline plain 128 512 => schedulable 14 15
H 4 4 3 3 1|L 5 3 1 1 2; sporadic deadline high 128 512 => unschedulable 13 15 by 1 2 9 9 9 then late 2
H 4 4 3 3 1|L 5 3 1 1 2; sporadic deadline short 128 512 => schedulable 12 12
H 4 4 3 3 1|L 5 3 1 1 2; sporadic deadline both 128 512 => unschedulable 13 15 by 1 2 9 9 9 then late 2
H 4 4 3 3 1|L 5 3 1 1 2; sporadic laxity plain 128 512 => schedulable 14 17
H 4 4 3 3 1|L 5 3 1 1 2; sporadic laxity high 128 512 => unschedulable 13 15 by 1 2 9 9 9 then late 2
H 4 4 3 3 1|L 5 3 1 1 2; sporadic laxity short 128 512 => schedulable 13 15
H 4 4 3 3 1|L 5 3 1 1 2; sporadic laxity both 128 512 => unschedulable 13 15 by 1 2 9 9 9 then late 2
L 3 3 2 2 1|L 5 4 1 1 1|H 6 6 1 3 0; sporadic fixed plain 128 512 => unschedulable 25 27 by 1 2 3 9 10 then 9 late 1
L 3 3 2 2 1|L 5 4 1 1 1|H 6 6 1 3 0; sporadic fixed high 128 512 => unschedulable 24 26 by 1 2 3 10 9 then 9 late 1
L 3 3 2 2 1|L 5 4 1 1 1|H 6 6 1 3 0; sporadic fixed short 128 512 => unschedulable 25 27 by 1 2 3 9 10 then 9 late 1
L 3 3 2 2 1|L 5 4 1 1 1|H 6 6 1 3 0; sporadic fixed both 128 512 => unschedulable 24 26 by 1 2 3 10 9 then 9 late 1
L 3 3 2 2 1|L 5 4 1 1 1|H 6 6 1 3 0; sporadic deadline plain 128 512 => unschedulable 44 56 by 1 2 3 9 9 9 1 9 then 10 9 late 3
L 3 3 2 2 1|L 5 4 1 1 1|H 6 6 1 3 0; sporadic deadline high 128 512 => unschedulable 42 60 by 1 2 3 10 9 9 1 9 9 2 9 1 3 10 9 9 then late 2
L 3 3 2 2 1|L 5 4 1 1 1|H 6 6 1 3 0; sporadic deadline short 128 512 => unschedulable 60 106 by 1 2 3 9 9 9 1 10 9 2 9 1 3 9 9 9 1 10 2 9 9 1 3 9 9 9 1 2 10 9 then 9 late 1
L 3 3 2 2 1|L 5 4 1 1 1|H 6 6 1 3 0; sporadic deadline both 128 512 => unschedulable 25 27 by 1 2 3 10 9 then 9 late 1
L 3 3 2 2 1|L 5 4 1 1 1|H 6 6 1 3 0; sporadic laxity plain 128 512 => unschedulable 95 153 by 1 2 3 9 9 9 1 10 9 2 9 1 3 9 9 9 1 10 2 9 9 1 3 9 9 9 1 2 10 9 9 1 3 9 9 2 9 1 10 9 9 then late 2
L 3 3 2 2 1|L 5 4 1 1 1|H 6 6 1 3 0; sporadic laxity high 128 512 => unschedulable 43 62 by 1 2 3 10 9 9 1 9 9 2 9 1 3 10 9 9 then late 2
L 3 3 2 2 1|L 5 4 1 1 1|H 6 6 1 3 0; sporadic laxity short 128 512 => unschedulable 34 39 by 1 2 3 10 9 9 then late 1
L 3 3 2 2 1|L 5 4 1 1 1|H 6 6 1 3 0; sporadic laxity both 128 512 => unschedulable 32 37 by 1 2 3 10 9 9 then late 1
L 3 3 2 2 1|L 5 4 1 1 1|H 6 6 1 3 0; periodic fixed plain 128 512 => unschedulable 43 44 by 3 10 1 2 9 9 9 1 9 9 2 3 9 1 10 9 9 1 9 2 9 3 10 then late 1
L 3 3 2 2 1|L 5 4 1 1 1|H 6 6 1 3 0; periodic fixed high 128 512 => unschedulable 41 42 by 3 10 1 2 9 9 9 1 9 9 2 3 10 1 9 9 9 1 9 2 9 3 10 then late 1
L 3 3 2 2 1|L 5 4 1 1 1|H 6 6 1 3 0; periodic fixed short 128 512 => unschedulable 43 44 by 3 10 1 2 9 9 9 1 9 9 2 3 9 1 10 9 9 1 9 2 9 3 10 then late 1
L 3 3 2 2 1|L 5 4 1 1 1|H 6 6 1 3 0; periodic fixed both 128 512 => unschedulable 41 42 by 3 10 1 2 9 9 9 1 9 9 2 3 10 1 9 9 9 1 9 2 9 3 10 then late 1
L 3 3 2 2 1|L 5 4 1 1 1|H 6 6 1 3 0; periodic deadline plain 128 512 => unschedulable 107 108 by 3 10 1 2 9 9 9 1 9 9 2 3 9 1 9 9 10 1 9 2 9 3 9 1 9 9 10 1 2 9 9 3 9 1 9 9 2 10 1 9 9 3 9 1 9 2 9 9 then 1 9 9 late 3
L 3 3 2 2 1|L 5 4 1 1 1|H 6 6 1 3 0; periodic deadline high 128 512 => unschedulable 85 86 by 3 10 1 2 9 9 9 1 9 9 2 3 10 1 9 9 9 1 9 2 9 3 10 1 9 9 9 1 2 9 9 3 10 1 9 9 2 9 1 9 9 3 10 then late 2
L 3 3 2 2 1|L 5 4 1 1 1|H 6 6 1 3 0; periodic deadline short 128 512 => unschedulable 111 112 by 3 10 1 2 9 9 9 1 9 9 2 3 9 1 10 9 9 1 9 2 9 3 9 1 10 9 9 1 2 9 9 3 9 1 10 9 2 9 1 9 9 3 9 1 10 2 9 9 1 9 9 3 9 1 2 9 10 then 9 late 1
L 3 3 2 2 1|L 5 4 1 1 1|H 6 6 1 3 0; periodic deadline both 128 512 => unschedulable 59 60 by 3 10 1 2 9 9 9 1 9 9 2 3 10 1 9 9 9 1 9 2 9 3 10 1 9 9 9 1 2 9 9 3 10 then late 1
L 3 3 2 2 1|L 5 4 1 1 1|H 6 6 1 3 0; periodic laxity plain 128 512 => nodes 128 129
L 3 3 2 2 1|L 5 4 1 1 1|H 6 6 1 3 0; periodic laxity high 128 512 => unschedulable 86 87 by 3 10 1 2 9 9 9 1 9 9 2 3 10 1 9 9 9 1 9 2 9 3 10 1 9 9 9 1 2 9 9 3 10 1 9 9 2 9 1 9 9 3 10 then late 2
L 3 3 2 2 1|L 5 4 1 1 1|H 6 6 1 3 0; periodic laxity short 128 512 => unschedulable 114 115 by 3 10 1 2 9 9 9 1 9 9 2 3 10 1 9 9 9 1 9 2 9 3 9 1 10 9 9 1 2 9 9 3 9 1 10 9 2 9 1 9 9 3 9 1 10 2 9 9 1 9 9 3 9 1 2 10 9 9 then late 1
L 3 3 2 2 1|L 5 4 1 1 1|H 6 6 1 3 0; periodic laxity both 128 512 => unschedulable 61 62 by 3 10 1 2 9 9 9 1 9 9 2 3 10 1 9 9 9 1 9 2 9 3 10 1 9 9 9 1 2 9 9 3 10 then late 1";

#[test]
fn policies_end_so(rt: HostRuntime) -> Result<(), Fail> {
    end_so(&rt, rt.alloc(), CASES)
}
