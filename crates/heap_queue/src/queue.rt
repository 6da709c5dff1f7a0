//! The queue: a heap of slots with their moments.
ghost use Rattle.heap_queue.specs.Heaps.{Whole};

use crate::tree::Tree;

mod calls;

/// A queue. A slot holds its moment where it stands in the heap, and nothing elsewhere.
#[derive(Drop)]
pub struct HeapQueue {
    tree: Tree,
    ghost whole: { Whole tree },
}
