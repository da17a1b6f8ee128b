// Entering a state: by a visit of its own, and by a node instead of those that it simulates.
ghost use Rattle.std.specs.Prelude.{length};
ghost use Rattle.exploration.specs.Exploring.{enter};
ghost use Rattle.explorer.specs.Held.{going, ComesTo};
ghost use Rattle.explorer.specs.Memories.{holds, Extends};

use crate::memory::Memory;
use exploration::{Node, Outcome, Visit};
use transition::System;

impl<T: Copy> Memory<'_, T> {
    // Enters a state that came about as `from` tells, and answers an outcome where exploring is over:
    // an Option, and no Result, since an outcome is an end and no error.
    pub(crate) fn enter<S: System<State = T>>(
        &mut self,
        system: &S,
        from: Visit,
        state: T,
    ) -> Option<Outcome>
        ensures enters { ComesTo (λ es. enter (S.System.meaning system.now) (length self.old.nodes.now) (length self.old.visits.now) from.parent from.event state (holds self.old es)) (λ es. going result (holds self.new es)) }
        ensures lent { Extends self.old self.new }
    {
        if self.covers(system, &state) {
            return None;
        }
        if self.written == self.visits.len() {
            return Some(Outcome::VisitsFull);
        }
        self.visits[self.written] = from;
        self.written += 1;
        if system.is_doomed(&state) {
            return Some(Outcome::Unschedulable);
        }
        self.close_up(system, &state);
        if self.kept == self.nodes.len() {
            return Some(Outcome::NodesFull);
        }
        self.nodes[self.kept] = Node {
            state,
            visit: self.written,
            opened: false,
        };
        self.kept += 1;
        None
    }
}
