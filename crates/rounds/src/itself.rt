// Rows that change nothing.
ghost use Rattle.std.specs.Prelude.{◌≡◌, [], ◌∷◌, Decides};
ghost use Rattle.rounds.specs.Changes.{is_itself};

use machine::node::Node;

/// Whether a row is just the node itself.
pub(crate) fn is_itself(node: Node, row: &[Node]) -> bool
    ensures exact { result ≡ is_itself node row.now }
    ensures tells { Decides result (row.now ≡ node ∷ []) }
{
    match row {
        [only] => *only == node,
        _ => false,
    }
}
