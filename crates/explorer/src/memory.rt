// The memory that is lent for exploring.
ghost use Rattle.std.specs.Prelude.{◌≤◌, length};

use exploration::{Node, Visit};

// The lent nodes and visits, and how many of each are in use: slices with counts, and no Vec, as the caller lends them.
#[derive(Drop)]
pub(crate) struct Memory<'a, T> {
    pub nodes: &'a mut [Node<T>],
    pub visits: &'a mut [Visit],
    pub kept: usize,
    pub written: usize,
    ghost nodes_within: { kept ≤ length nodes.now },
    ghost visits_within: { written ≤ length visits.now },
}
