// The nodes as an antichain: which of them simulates a state, which it simulates, and which to open next.
ghost use Rattle.std.specs.Prelude.{◌≡◌, not, take, position};
ghost use Rattle.std.specs.List.{list_any};
ghost use Rattle.exploration.specs.Exploring.{without};
ghost use Rattle.explorer.specs.Memories.{Thinned};

use crate::memory::Memory;
use transition::System;

impl<T: Copy> Memory<'_, T> {
    // Whether one of the nodes in use simulates the state.
    pub(crate) fn covers<S: System<State = T>>(&self, system: &S, state: &T) -> bool
        ensures { result ≡ list_any (λ n. (S.System.meaning system.now).simulates n.state state.now) (take self.now.kept self.now.nodes.now) }
    {
        self.nodes[..self.kept]
            .iter()
            .any(|node| system.simulates(&node.state, state))
    }

    // Takes out the nodes that the state simulates, and closes up the rest in their order.
    pub(crate) fn close_up<S: System<State = T>>(&mut self, system: &S, state: &T)
        ensures stay { take self.new.kept self.new.nodes.now ≡ without (S.System.meaning system.now) state.now (take self.old.kept self.old.nodes.now) }
        ensures thinned { Thinned self.old self.new }
    {
        let mut stay = 0;
        // A loop, and not `retain`: the lent slice keeps its length.
        for i in 0..self.kept {
            let node = self.nodes[i];
            if !system.simulates(state, &node.state) {
                self.nodes[stay] = node;
                stay += 1;
            }
        }
        self.kept = stay;
    }

    // The first of the nodes in use that is not opened.
    pub(crate) fn first_unopened(&self) -> Option<usize>
        ensures { result ≡ position (λ n. not n.opened) (take self.now.kept self.now.nodes.now) }
    {
        self.nodes[..self.kept].iter().position(|node| !node.opened)
    }
}
