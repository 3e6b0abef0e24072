// Making programs and changing them.
ghost use Rattle.std.specs.Prelude.{◌≡◌, ◌+◌, ◌≤◌, true, ◌&&◌, ◌++◌, length, take, if◌then◌else◌, nat_le, nat_lt, slice_set};
ghost use Rattle.std.specs.Option.{option_map};
ghost use Rattle.machine.specs.Limits.{node_limit};
ghost use Rattle.machine.specs.Programs.{prog, program_of, halting, checked, every_sound};
ghost use Rattle.machine.specs.WellFormed.{sound};

use crate::node::{Entry, NODE_LIMIT, Node, NodeNumber, Table};
use crate::program::Program;

fn are_sound(entries: &[Entry], count: NodeNumber) -> bool
    ensures { result ≡ every_sound count entries.now }
{
    entries.iter().all(|entry| entry.is_sound(count))
}

impl Program {
    /// The program that halts at once.
    pub fn halt() -> Program
        ensures { program_of result ≡ halting }
    {
        let table = Table::halting();
        Program {
            table,
            count: 1,
            first: 0,
        }
    }

    /// The program that begins a table, if it is one.
    pub fn from_table(table: Table, count: NodeNumber, first: NodeNumber) -> Option<Program>
        ensures { option_map program_of result ≡ checked table.entries count first }
    {
        if count as usize > NODE_LIMIT || first >= count {
            return None;
        }
        if !are_sound(&table.entries[..count as usize], count) {
            return None;
        }
        Some(Program {
            table,
            count,
            first,
        })
    }

    // Here and in `append` a `bool` tells whether it was done, as for `insert` of a set; there is no more to tell.
    /// Puts `entry` in the place of the one at `k`, if that leaves a program.
    pub fn replace(&mut self, k: NodeNumber, entry: Entry) -> bool
        ensures told { result ≡ (nat_lt k self.old.count && sound self.old.count entry) }
        ensures changed { program_of self.new ≡ (if result then prog (slice_set (program_of self.old).entries k entry) (program_of self.old).first else program_of self.old) }
    {
        if k >= self.count {
            return false;
        }
        if !entry.is_sound(self.count) {
            return false;
        }
        self.table.entries[k as usize] = entry;
        true
    }

    /// Puts entries behind the last one, if there is room and that leaves a program; they may lead to one another.
    pub fn append(&mut self, more: &[Entry]) -> bool
        ensures told { result ≡ (nat_le (self.old.count + length more.now) node_limit && every_sound (self.old.count + length more.now) more.now) }
        ensures changed { program_of self.new ≡ (if result then prog ((program_of self.old).entries ++ more.now) (program_of self.old).first else program_of self.old) }
    {
        if more.len() > NODE_LIMIT - self.count as usize {
            return false;
        }
        let count = self.count + more.len() as NodeNumber;
        if !are_sound(more, count) {
            return false;
        }
        self.table.entries[self.count as usize..count as usize].copy_from_slice(more);
        self.count = count;
        true
    }
}
