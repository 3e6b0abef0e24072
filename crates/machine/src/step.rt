// What one node does.
ghost use Rattle.std.specs.Prelude.{◌≡◌, ◌≤◌, true, false, length};
ghost use Rattle.machine.specs.State.{value};
ghost use Rattle.machine.specs.Step.{act, effect, blocked};
ghost use Rattle.machine.specs.Progress.{state_of, GoneOn};
ghost use Rattle.machine.specs.WellFormed.{is_operand, is_node};

use crate::arithmetic::compute;
use crate::node::{Node, Operand};
use crate::outcome::Ending;
use crate::progress::Progress;
use std::ops::ControlFlow;

impl Progress<'_, '_, '_> {
    fn operand(&self, operand: Operand) -> u32
        requires { is_operand operand ≡ true }
        ensures { result ≡ value self.now.registers operand }
    {
        match operand {
            Operand::Reg(r) => self.registers[r as usize],
            Operand::Num(n) => n,
        }
    }

    /// Whether a node would write a word for which there is no room.
    pub(crate) fn is_blocked(&self, node: Node) -> bool
        ensures { result ≡ blocked node (length self.now.output.now) self.now.written }
    {
        matches!(node, Node::Out { .. }) && self.output.len() <= self.written
    }

    /// Runs one node, for whose word there is room: the run goes on by one of the node's exits, or is over.
    pub(crate) fn perform(&mut self, node: Node) -> ControlFlow<Ending, usize>
        requires node { is_node node ≡ true }
        requires room { blocked node (length self.old.output.now) self.old.written ≡ false }
        ensures acts { act node (state_of self.old) ≡ effect result (state_of self.new) }
        ensures goes_on { GoneOn self.old self.new }
    {
        match node {
            Node::Mov { to, from } => self.registers[to as usize] = self.operand(from),
            Node::Binary {
                op,
                to,
                left,
                right,
            } => {
                let Some(word) = compute(op, self.operand(left), self.operand(right)) else {
                    return ControlFlow::Break(Ending::Divided);
                };
                self.registers[to as usize] = word;
            }
            Node::In { to } => {
                let Some((word, rest)) = self.inputs.split_first() else {
                    return ControlFlow::Break(Ending::Dry);
                };
                self.registers[to as usize] = *word;
                self.inputs = rest;
            }
            Node::Out { from } => {
                self.output[self.written] = self.operand(from);
                self.written += 1;
            }
            Node::Ld { to, cell } => self.registers[to as usize] = self.cells[cell as usize],
            Node::St { cell, from } => self.cells[cell as usize] = self.operand(from),
            Node::Br { on } => return ControlFlow::Continue(usize::from(self.operand(on) == 0)),
            Node::Skip => {}
            Node::Halt => return ControlFlow::Break(Ending::Halted),
            Node::Fail { fault } => return ControlFlow::Break(Ending::Failed(fault)),
        }
        ControlFlow::Continue(0)
    }
}
