// Where targets are sent: past skips.
ghost use Rattle.std.specs.Prelude.{◌≡◌, ℕ, ◌<◌, length, replicate, slice_index};
ghost use Rattle.machine.specs.Programs.{program_of};
ghost use Rattle.tidying.specs.declared.ways.Way.TheVariants.{Unknown};
ghost use Rattle.tidying.specs.Skips.{is_skip, landing, past};
ghost use Rattle.tidying.specs.Ways.{Right, Left};

use crate::ways::Way;
use machine::node::{NODE_LIMIT, Node, NodeNumber};
use machine::program::Program;

fn is_skip(node: Node) -> bool
    ensures { result ≡ is_skip node }
{
    matches!(node, Node::Skip)
}

/// The first node from `n` on that is no skip, if there is one; what is learnt on the way is put down.
fn land(program: &Program, n: NodeNumber, ways: &mut [Way]) -> Option<NodeNumber>
    requires there { n < length (program_of program.now).entries }
    requires right { Right (program_of program.now) n ways.old }
    ensures value { result ≡ landing (program_of program.now) n }
    ensures right { Right (program_of program.now) n ways.new }
    ensures left { Left ways.old ways.new }
{
    match ways[n as usize] {
        Way::To(j) => return Some(j),
        Way::Walking | Way::Ring => return None,
        Way::Unknown => {}
    }
    let entry = program.entries()[n as usize];
    if !is_skip(entry.node) {
        ways[n as usize] = Way::To(n);
        return Some(n);
    }
    ways[n as usize] = Way::Walking;
    let found = land(program, entry.targets[0], ways);
    ways[n as usize] = Way::from(found);
    found
}

/// Puts down for each node where a target that leads to it is sent.
fn send_all(program: &Program, ways: &mut [Way], sent: &mut [NodeNumber])
    requires still { ways.old ≡ replicate (length (program_of program.now).entries) Unknown }
    requires each { length sent.old ≡ length (program_of program.now).entries }
    ensures { (n : ℕ) → n < length (program_of program.now).entries → slice_index sent.new n ≡ past (program_of program.now) n }
{
    for (n, place) in sent.iter_mut().enumerate() {
        let number = n as NodeNumber;
        *place = land(program, number, ways).unwrap_or(number);
    }
}

/// Puts down for each node where a target that leads to it is sent.
pub(crate) fn find_past(program: &Program, sent: &mut [NodeNumber])
    requires { length sent.old ≡ length (program_of program.now).entries }
    ensures { (n : ℕ) → n < length (program_of program.now).entries → slice_index sent.new n ≡ past (program_of program.now) n }
{
    // Fixed memory: room for the largest program.
    let mut ways = [Way::Unknown; NODE_LIMIT];
    send_all(program, &mut ways[0..sent.len()], sent);
}
