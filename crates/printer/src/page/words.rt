// Writing words on a page.
ghost use Rattle.std.specs.Prelude.{◌≡◌, [], ◌∷◌, ◌++◌, decimal};
ghost use Rattle.printer.specs.Pages.{Room, spaced};
ghost use Rattle.text.specs.Print.{operand_word, operand_words, exit_words};

use crate::page::Page;
use machine::node::{Exits, Node, NodeNumber, Operand};

impl Page {
    /// Writes a word behind a space.
    pub(super) fn push_word(&mut self, word: &[u8])
        requires { Room self.old (spaced (word.now ∷ [])) }
        ensures { self.new ≡ self.old ++ spaced (word.now ∷ []) }
    {
        self.push(b" ");
        self.push(word);
    }

    /// Writes a word that is a number behind a mark.
    pub(super) fn push_numbered(&mut self, mark: &[u8], n: u32)
        requires { Room self.old (spaced ((mark.now ++ decimal n) ∷ [])) }
        ensures { self.new ≡ self.old ++ spaced ((mark.now ++ decimal n) ∷ []) }
    {
        self.push_word(mark);
        self.push_number(n);
    }

    fn push_operand(&mut self, operand: Operand)
        requires { Room self.old (spaced (operand_word operand ∷ [])) }
        ensures { self.new ≡ self.old ++ spaced (operand_word operand ∷ []) }
    {
        match operand {
            Operand::Reg(r) => self.push_numbered(b"r", u32::from(r)),
            Operand::Num(n) => self.push_numbered(b"#", n),
        }
    }

    pub(super) fn push_operands(&mut self, node: Node)
        requires { Room self.old (spaced (operand_words node)) }
        ensures { self.new ≡ self.old ++ spaced (operand_words node) }
    {
        match node {
            Node::Mov { to, from } => {
                self.push_numbered(b"r", u32::from(to));
                self.push_operand(from);
            }
            Node::Binary {
                to,
                left,
                right,
                ..
            } => {
                self.push_numbered(b"r", u32::from(to));
                self.push_operand(left);
                self.push_operand(right);
            }
            Node::In { to } => self.push_numbered(b"r", u32::from(to)),
            Node::Out { from } => self.push_operand(from),
            Node::Ld { to, cell } => {
                self.push_numbered(b"r", u32::from(to));
                self.push_numbered(b"c", u32::from(cell));
            }
            Node::St { cell, from } => {
                self.push_numbered(b"c", u32::from(cell));
                self.push_operand(from);
            }
            Node::Br { on } => self.push_operand(on),
            Node::Skip | Node::Halt => {}
            Node::Fail { fault } => self.push_numbered(b"!", u32::from(fault)),
        }
    }

    pub(super) fn push_exits(&mut self, exits: Exits, targets: [NodeNumber; 2])
        requires { Room self.old (spaced (exit_words exits targets)) }
        ensures { self.new ≡ self.old ++ spaced (exit_words exits targets) }
    {
        match exits {
            Exits::None => {}
            Exits::One => {
                self.push_word(b"->");
                self.push_numbered(b"", u32::from(targets[0]));
            }
            Exits::Two => {
                self.push_word(b"->");
                self.push_numbered(b"", u32::from(targets[0]));
                self.push_numbered(b"", u32::from(targets[1]));
            }
        }
    }
}
