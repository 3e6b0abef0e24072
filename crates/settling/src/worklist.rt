// A list of work: an item for each node, and the nodes that wait.
ghost use Rattle.std.specs.Prelude.{length};
ghost use Rattle.settling.specs.NodeSets.{Within};

use crate::node_set::NodeSet;
use machine::node::NodeNumber;

/// An item for each node, and the nodes that wait.
#[derive(Drop)]
pub struct Worklist<'a, T> {
    pub(crate) items: &'a mut [T],
    pub(crate) waiting: NodeSet,
    ghost within: { Within (length items.now) waiting },
}

impl<'a, T: Copy> Worklist<'a, T> {
    ghost use Rattle.std.specs.Prelude.{◌≡◌, min, true, false, replicate, slice_get, slice_set};
    ghost use Rattle.settling.specs.NodeSets.{lowest, without};
    ghost use Rattle.settling.specs.Worklist.{worklist};
    ghost use Rattle.settling.specs.Working.{held};

    /// The items as they are, with no node waiting. A node's number is a byte, so at most 256 nodes can wait.
    pub fn new(items: &'a mut [T]) -> Worklist<'a, T>
        ensures exact { held result ≡ worklist items.old (replicate (min (length items.old) 256) false) }
        ensures same { result.items.ghost_name ≡ items.entry.ghost_name }
    {
        let waiting = NodeSet::new();
        Worklist { items, waiting }
    }

    /// The item of a node, if the node has one.
    pub fn get(&self, node: NodeNumber) -> Option<T>
        ensures { result ≡ slice_get (held self.now).items node }
    {
        self.items.get(node as usize).copied()
    }

    /// Gives a node that has an item another one, and has it wait.
    pub fn put(&mut self, node: NodeNumber, item: T)
        ensures exact { held self.new ≡ worklist (slice_set (held self.old).items node item) (slice_set (held self.old).waiting node true) }
        ensures same { self.new.items.ghost_name ≡ self.old.items.ghost_name }
    {
        let items = &mut *self.items;
        if (node as usize) < items.len() {
            items[node as usize] = item;
            self.waiting.insert(node);
        }
    }

    /// The lowest waiting node stops waiting, if there is one.
    pub fn take_lowest(&mut self) -> Option<NodeNumber>
        ensures value { result ≡ lowest (held self.old).waiting }
        ensures after { held self.new ≡ worklist (held self.old).items (without result (held self.old).waiting) }
        ensures same { self.new.items.ghost_name ≡ self.old.items.ghost_name }
    {
        self.waiting.take_lowest()
    }
}
