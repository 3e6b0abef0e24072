// Keeping the marked nodes, and numbering them anew.
ghost use Rattle.std.specs.Prelude.{◌≡◌, ℕ, ◌<◌, ◌≤◌, length, take, slice_index};
ghost use Rattle.tidying.specs.Tidy.{marked, rank};

use machine::node::{Entry, NodeNumber};

/// Moves the marked entries to the front, in their order, and tells how many there are.
pub(crate) fn keep(entries: &mut [Entry], marks: &[bool]) -> usize
    requires { length marks.now ≡ length entries.old }
    ensures { (take result entries.new ≡ marked marks.now entries.old) × (result ≤ length entries.old) }
{
    let mut count = 0;
    for (i, marked) in marks.iter().enumerate() {
        if *marked {
            entries[count] = entries[i];
            count += 1;
        }
    }
    count
}

/// Puts down for each node how many marked ones stand before it, which is its new number if it is marked.
pub(crate) fn number(marks: &[bool], numbers: &mut [NodeNumber])
    requires each { length numbers.old ≡ length marks.now }
    requires few { length marks.now ≤ 200 }
    ensures { (n : ℕ) → n < length marks.now → slice_index numbers.new n ≡ rank marks.now n }
{
    let mut next = 0;
    // Over `numbers.iter_mut().zip(marks)` an invariant cannot say what has been put down.
    for (i, marked) in marks.iter().enumerate() {
        numbers[i] = next;
        if *marked {
            next += 1;
        }
    }
}
