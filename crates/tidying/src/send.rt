// Sending targets elsewhere.
ghost use Rattle.std.specs.Prelude.{◌≡◌, ℕ, ◌<◌, map, length, slice_index};
ghost use Rattle.std.specs.List.{All};
ghost use Rattle.tidying.specs.Skips.{retargeted};
ghost use Rattle.tidying.specs.Targets.{TargetsBelow};

use machine::node::{Entry, Exits, NodeNumber};

/// The entry with each of its targets t sent to `to[t]`.
fn retarget(entry: Entry, to: &[NodeNumber]) -> Entry
    requires { TargetsBelow (length to.now) entry }
    ensures { result ≡ retargeted (λ n. slice_index to.now n) entry }
{
    let targets = match entry.node.exits() {
        Exits::None => [0, 0],
        Exits::One => [to[entry.targets[0] as usize], 0],
        Exits::Two => [to[entry.targets[0] as usize], to[entry.targets[1] as usize]],
    };
    Entry {
        node: entry.node,
        targets,
    }
}

/// Sends the targets t of all entries to `to[t]`.
pub(crate) fn send(entries: &mut [Entry], to: &[NodeNumber])
    requires { All (TargetsBelow (length to.now)) entries.old }
    ensures { entries.new ≡ map (retargeted (λ n. slice_index to.now n)) entries.old }
{
    for entry in entries.iter_mut() {
        *entry = retarget(*entry, to);
    }
}
