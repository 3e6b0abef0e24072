// Looking at a program.
ghost use Rattle.std.specs.Prelude.{◌≡◌, length, take};
ghost use Rattle.machine.specs.Programs.{program_of, IsProgram};

use crate::node::{Entry, NodeNumber, Table};
use crate::program::Program;

impl Program {
    /// The entries, in the order of their numbers.
    pub fn entries(&self) -> &[Entry]
        ensures value { result.now ≡ (program_of self.now).entries }
        ensures whole { IsProgram (program_of self.now) }
    {
        let Program { table, count, .. } = self;
        &table.entries[..*count as usize]
    }

    /// A copy of the table, which begins with the entries.
    pub fn table(&self) -> Table
        ensures { take (length (program_of self.now).entries) result.entries ≡ (program_of self.now).entries }
    {
        self.table
    }

    /// The number of nodes.
    pub fn count(&self) -> NodeNumber
        ensures { result ≡ length (program_of self.now).entries }
    {
        self.count
    }

    /// The number of the node at which a run begins.
    pub fn first(&self) -> NodeNumber
        ensures { result ≡ (program_of self.now).first }
    {
        self.first
    }
}
