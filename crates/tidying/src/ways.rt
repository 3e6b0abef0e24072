// What is known of where skips lead.
ghost use Rattle.std.specs.Prelude.{◌≡◌};
ghost use Rattle.tidying.specs.Ways.{way_found};

use machine::node::NodeNumber;

/// Where the skips from a node lead: not looked at yet, on the walk that is being made, to the first node that is no skip, or round in a ring.
#[derive(Clone, Copy)]
pub enum Way {
    Unknown,
    Walking,
    To(NodeNumber),
    Ring,
}

impl From<Option<NodeNumber>> for Way {
    fn from(found: Option<NodeNumber>) -> Way
        ensures { result ≡ way_found found }
    {
        found.map_or(Way::Ring, Way::To)
    }
}
