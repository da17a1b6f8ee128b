// Exploring a system: whatever its events lead to is entered, until all is opened or the outcome is known.
ghost use Rattle.std.specs.Prelude.{◌≡◌, ◌≤◌, List, length, take, drop};
ghost use Rattle.exploration.specs.Stores.{states, over};
ghost use Rattle.exploration.specs.Exploring.{rest, exploring, explored};
ghost use Rattle.exploration.specs.Claims.{IsTooLarge, Enough, Decides, NeverLate, EverLate, ShownLate, NodesHonestlyFull, VisitsHonestlyFull, EveryVisitTells, Closed, Antichain};
ghost use Rattle.explorer.specs.Held.{held, shown, left_by, ComesTo};
ghost use Rattle.explorer.specs.Memories.{holds, Extends};

use crate::memory::Memory;
use exploration::{Node, Outcome, Visit};
use transition::System;

// The most nodes that may be lent.
pub const MOST_NODES: usize = 4096;

// The most visits that may be lent.
pub const MOST_VISITS: usize = 65535;

// Explores the system within the lent memory, and answers the outcome, how many nodes it leaves and how many visits.
// The nodes and visits are two slices that the caller lends and keeps.
pub fn explore<S: System>(
    system: &S,
    nodes: &mut [Node<S::State>],
    visits: &mut [Visit],
) -> (Outcome, usize, usize)
    ensures answers { (result.0, take result.1 nodes.new, take result.2 visits.new) ≡ shown (explored (S.System.meaning system.now) (length nodes.old) (length visits.old)) }
    ensures within { (result.1 ≤ length nodes.old) × (result.2 ≤ length visits.old) }
    ensures untouched { drop result.2 visits.new ≡ drop result.2 visits.old }
    ensures too_large { IsTooLarge (length nodes.old) (length visits.old) → (result.0 ≡ Outcome.TooLarge) × (result.1 ≡ 0) × (result.2 ≡ 0) × (nodes.new ≡ nodes.old) × (visits.new ≡ visits.old) }
    ensures too_large_only { result.0 ≡ Outcome.TooLarge → IsTooLarge (length nodes.old) (length visits.old) }
    ensures never_late { result.0 ≡ Outcome.Schedulable → NeverLate (S.System.meaning system.now) }
    ensures closed { result.0 ≡ Outcome.Schedulable → Closed (S.System.meaning system.now) (states (take result.1 nodes.new)) }
    ensures ever_late { result.0 ≡ Outcome.Unschedulable → EverLate (S.System.meaning system.now) }
    ensures shown_late { result.0 ≡ Outcome.Unschedulable → ShownLate (S.System.meaning system.now) (take result.2 visits.new) }
    ensures nodes_honestly_full { result.0 ≡ Outcome.NodesFull → NodesHonestlyFull (S.System.meaning system.now) (length nodes.old) }
    ensures visits_honestly_full { result.0 ≡ Outcome.VisitsFull → VisitsHonestlyFull (S.System.meaning system.now) (length visits.old) }
    ensures decides { Enough (S.System.meaning system.now) (length nodes.old) (length visits.old) → Decides (S.System.meaning system.now) result.0 }
    ensures every_visit_tells { EveryVisitTells (S.System.meaning system.now) (left_by (S.System.meaning system.now) (length nodes.old) (length visits.old) nodes.new result.1 visits.new result.2) }
    ensures antichain { Antichain (S.System.meaning system.now) (length nodes.old) (length visits.old) (left_by (S.System.meaning system.now) (length nodes.old) (length visits.old) nodes.new result.1 visits.new result.2) }
{
    if nodes.len() > MOST_NODES || visits.len() > MOST_VISITS {
        return (Outcome::TooLarge, 0, 0);
    }
    explore_lent(system, nodes, visits)
}

// Explores the system in lent memory, none of which is in use.
fn explore_lent<S: System>(
    system: &S,
    nodes: &mut [Node<S::State>],
    visits: &mut [Visit],
) -> (Outcome, usize, usize)
    ensures ends { (es : List S.State) × (exploring (S.System.meaning system.now) (length nodes.old) (length visits.old) ≡ over result.0 (held nodes.new result.1 visits.new result.2 es)) }
    ensures within { (result.1 ≤ length nodes.old) × (result.2 ≤ length visits.old) }
    ensures untouched { drop result.2 visits.new ≡ drop result.2 visits.old }
{
    let mut memory = Memory {
        nodes,
        visits,
        kept: 0,
        written: 0,
    };
    let outcome = memory.run(system);
    (outcome, memory.kept, memory.written)
}

impl<T: Copy> Memory<'_, T> {
    // Enters the system's first state in memory that is not in use, and opens nodes until exploring is over.
    fn run<S: System<State = T>>(&mut self, system: &S) -> Outcome
        requires unused { (self.old.kept ≡ 0) × (self.old.written ≡ 0) }
        ensures ends { (es : List T) × (exploring (S.System.meaning system.now) (length self.old.nodes.now) (length self.old.visits.now) ≡ over result (holds self.new es)) }
        ensures same_nodes { self.new.nodes.ghost_name ≡ self.old.nodes.ghost_name }
        ensures same_visits { self.new.visits.ghost_name ≡ self.old.visits.ghost_name }
        ensures lent { Extends self.old self.new }
    {
        // A match: both ways go on with the memory, which a closure would have to borrow.
        match self.enter(system, Visit::START, system.first()) {
            Some(outcome) => outcome,
            None => self.open_all(system),
        }
    }

    // Opens the nodes one after another, and enters what their events lead to, until exploring is over:
    // nested loops, a turn for each node and in it a sweep over its events, left by a label.
    fn open_all<S: System<State = T>>(&mut self, system: &S) -> Outcome
        ensures ends { ComesTo (λ es. rest (S.System.meaning system.now) (length self.old.nodes.now) (length self.old.visits.now) (holds self.old es)) (λ es. over result (holds self.new es)) }
        ensures lent { Extends self.old self.new }
    {
        'explore: loop {
            let Some(at) = self.first_unopened() else {
                break 'explore Outcome::Schedulable;
            };
            self.nodes[at].opened = true;
            let node = self.nodes[at];
            for event in 1..system.event_count() + 1 {
                if let Ok(next) = system.next(&node.state, event) {
                    let from = Visit {
                        parent: node.visit,
                        event,
                    };
                    if let Some(outcome) = self.enter(system, from, next) {
                        break 'explore outcome;
                    }
                }
            }
        }
    }
}
