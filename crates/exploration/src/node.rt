// What exploring writes: the nodes that it keeps, and the visits by which each state was entered.
ghost use Rattle.std.specs.Prelude.{◌≡◌, false};

// A state that is kept, the number of the visit that entered it, and whether its events were tried.
#[derive(Clone, Copy, Debug, PartialEq, Eq)]
pub struct Node<T> {
    pub state: T,
    pub visit: usize,
    pub opened: bool,
}

impl<T> Node<T> {
    // A node before exploring, which takes any state.
    pub fn unused(state: T) -> Self
        ensures { result ≡ record { state = state; visit = 0; opened = false } }
    {
        Node {
            state,
            visit: 0,
            opened: false,
        }
    }
}

// The visit that a state was entered from, or 0 for the first one, and the event that led on from there.
// Plain numbers, and no Option: visits may come from anywhere, and tracing refuses a start that has an event.
#[derive(Clone, Copy, Debug, PartialEq, Eq)]
pub struct Visit {
    pub parent: usize,
    pub event: u8,
}

impl Visit {
    // The visit of the first state.
    pub const START: Visit = Visit {
        parent: 0,
        event: 0,
    };
}
