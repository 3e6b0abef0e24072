// What an analysis proposes in the place of a node.
ghost use Rattle.std.specs.Prelude.{◌≡◌, ◌<◌, ◌≤◌, [], ◌∷◌, ◌++◌, Some, None, cond, length, nat_le, take};
ghost use Rattle.std.specs.Option.{option_map};
ghost use Rattle.analysis.specs.Rows.{row_limit};

use machine::node::Node;

/// The most nodes of a row.
pub const ROW_LIMIT: usize = 4;

// Fixed memory, as the table of a program and the page of the printer; each has methods of its own, so one type for all would only be wrapped.
/// At most four nodes, which run in turn: the first `len` of `nodes`.
#[derive(Clone, Copy)]
pub struct Row {
    nodes: [Node; ROW_LIMIT],
    len: usize,
    ghost places: { length nodes ≡ row_limit },
    ghost within: { len ≤ row_limit },
}

impl Row {
    ghost use Rattle.analysis.specs.Analyses.{nodes_of};

    pub fn empty() -> Row
        ensures { nodes_of result ≡ [] }
    {
        Row {
            nodes: [Node::Skip; ROW_LIMIT],
            len: 0,
        }
    }

    /// The node alone.
    pub fn one(node: Node) -> Row
        ensures { nodes_of result ≡ node ∷ [] }
    {
        Row {
            nodes: [node; ROW_LIMIT],
            len: 1,
        }
    }

    /// These nodes, if they are not too many.
    pub fn from_slice(nodes: &[Node]) -> Option<Row>
        ensures { option_map nodes_of result ≡ cond (nat_le (length nodes.now) row_limit) (Some nodes.now) None }
    {
        if nodes.len() > ROW_LIMIT {
            return None;
        }
        let mut places = [Node::Skip; ROW_LIMIT];
        let len = nodes.len();
        places[..len].copy_from_slice(nodes);
        Some(Row { nodes: places, len })
    }

    /// Puts a node at the end.
    pub(crate) fn push(&mut self, node: Node)
        requires { length (nodes_of self.old) < row_limit }
        ensures { nodes_of self.new ≡ nodes_of self.old ++ node ∷ [] }
    {
        self.nodes[self.len] = node;
        self.len += 1;
    }

    pub fn as_slice(&self) -> &[Node]
        ensures { result.now ≡ nodes_of self.now }
    {
        &self.nodes[..self.len]
    }

    /// The nodes, and then entries that say nothing.
    pub fn to_array(self) -> [Node; ROW_LIMIT]
        ensures { take (length (nodes_of self)) result ≡ nodes_of self }
    {
        let Row { nodes, .. } = self;
        nodes
    }
}

/// A row of nodes to stand for one node, which ends straight and leaves by `way`, or else ends as the node does.
/// Bit k of `set` says that analysis k had a part in it.
// Way and set are numbers here as in a change list, which is plain data that anyone may fill.
#[derive(Clone, Copy)]
pub struct Proposal {
    pub row: Row,
    pub way: u8,
    pub set: u16,
}

impl Proposal {
    ghost use Rattle.analysis.specs.Analyses.{instead, meant};

    /// Proposes one node.
    pub fn one(node: Node, way: u8, set: u16) -> Proposal
        ensures { meant (Some result) ≡ instead (node ∷ []) way set }
    {
        let row = Row::one(node);
        Proposal { row, way, set }
    }
}
