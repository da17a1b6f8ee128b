// Memory to lend.
use canal_lock::Chamber;
use explorer::{Node, Visit};
use std::alloc::{AllocError, Global};

// So many nodes, with nothing of note in them.
pub(crate) fn lent_nodes(heap: Global, count: usize) -> Result<Vec<Node<Chamber>>, AllocError> {
    vec![in heap; Node::unused(Chamber::CALM); count]
}

// So many visits: not START, as exploring is to look at no visit that it did not write.
pub(crate) fn lent_visits(heap: Global, count: usize) -> Result<Vec<Visit>, AllocError> {
    let visit = Visit {
        parent: 9,
        event: 9,
    };
    vec![in heap; visit; count]
}
