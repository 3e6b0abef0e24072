// Writing the lines of a program on a page.
ghost use Rattle.std.specs.Prelude.{◌≡◌, ◌≤◌, ◌∷◌, ◌++◌, length};
ghost use Rattle.machine.specs.Limits.{node_limit};
ghost use Rattle.machine.specs.Programs.{program_of};
ghost use Rattle.text.specs.Kinds.{kind_name, kind_of};
ghost use Rattle.printer.specs.Pages.{Room, spaced};
ghost use Rattle.text.specs.Print.{operand_words, label_word, entry_words, trailer_words, line, node_lines, printed};

use crate::name::{kind_name, kind_of};
use crate::page::Page;
use machine::node::{Entry, Node, NodeNumber};
use machine::program::Program;

impl Page {
    fn push_label(&mut self, number: NodeNumber)
        requires { Room self.old (label_word number) }
        ensures { self.new ≡ self.old ++ label_word number }
    {
        self.push_number(u32::from(number));
        self.push(b":");
    }

    fn push_node(&mut self, node: Node)
        requires { Room self.old (spaced (kind_name (kind_of node) ∷ operand_words node)) }
        ensures { self.new ≡ self.old ++ spaced (kind_name (kind_of node) ∷ operand_words node) }
    {
        self.push_word(kind_name(kind_of(node)));
        self.push_operands(node);
    }

    fn push_entry(&mut self, number: NodeNumber, entry: Entry)
        requires { Room self.old (line (entry_words number entry)) }
        ensures { self.new ≡ self.old ++ line (entry_words number entry) }
    {
        self.push_label(number);
        self.push_node(entry.node);
        self.push_exits(entry.node.exits(), entry.targets);
        self.push(b"\n");
    }

    fn push_entries(&mut self, entries: &[Entry])
        requires few { length entries.now ≤ node_limit }
        requires room { Room self.old (node_lines 0 entries.now) }
        ensures { self.new ≡ self.old ++ node_lines 0 entries.now }
    {
        for (number, entry) in entries.iter().enumerate() {
            self.push_entry(number as NodeNumber, *entry);
        }
    }

    fn push_trailer(&mut self, count: NodeNumber, first: NodeNumber)
        requires { Room self.old (line (trailer_words count first)) }
        ensures { self.new ≡ self.old ++ line (trailer_words count first) }
    {
        self.push(b"end");
        self.push_numbered(b"", u32::from(count));
        self.push_word(b"from");
        self.push_numbered(b"", u32::from(first));
        self.push(b"\n");
    }

    pub(crate) fn push_program(&mut self, program: &Program)
        requires { Room self.old (printed (program_of program.now)) }
        ensures { self.new ≡ self.old ++ printed (program_of program.now) }
    {
        self.push_entries(program.entries());
        self.push_trailer(program.count(), program.first());
    }
}
