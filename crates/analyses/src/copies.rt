// Copies: a fact says of some registers that another register holds the same word, whatever way a run came here, or that no run comes here.
// It allows the states in which each register with a present entry holds the word of the register that the entry names.
ghost use Rattle.std.specs.Prelude.{◌≡◌};
ghost use Rattle.analyses.specs.Copies.{copied_facts, copied_moves, without, cleared, with_source, copied_after, source_of, copied_operand, is_copied, copied_node};
ghost use Rattle.analyses.specs.Operands.{any_operand};
ghost use Rattle.analyses.specs.CopyLaws.{copied_shown, copies_sound};

use crate::entries::{Entries, Registers, entry, join, write};
use crate::operands::{any_operand, on_operands};
use analysis::analysis::{Analysis, Facts};
use analysis::proposal::Proposal;
use machine::node::{Node, Operand};

#[derive(Clone, Copy)]
pub struct Copies;

/// Of each register another one that holds the same word, where one is known.
pub type Copied = Entries<u8>;

/// Bit 2.
const SET: u16 = 4;

// These impls have the shape of those for `Constants`, as an impl is for one type; they differ in that type and in the functions called.
impl Facts for Copies {
    type Fact = Copied;

    ghost facts = { λ _. copied_facts };

    ghost shown = { λ a. copied_shown };

    fn nowhere(&self) -> Copied {
        None
    }

    fn is_nowhere(&self, fact: &Copied) -> bool {
        fact.is_none()
    }

    fn join(&self, fact: &mut Copied, more: &Copied) -> bool {
        join(fact, more)
    }
}

/// An entry, unless it names the register.
fn unless_named(entry: Option<u8>, register: u8) -> Option<u8>
    ensures { result ≡ without register entry }
{
    entry.filter(|source| *source != register)
}

/// Takes out the entries that name the register.
fn forget(sources: &mut Registers<u8>, register: u8)
    ensures { sources.new ≡ cleared 8 register sources.old }
{
    for entry in sources.iter_mut() {
        *entry = unless_named(*entry, register);
    }
}

/// Writes the register: its old word is gone, and it has a new entry.
fn write_register(sources: &mut Registers<u8>, register: u8, entry: Option<u8>)
    ensures { sources.new ≡ with_source sources.old register entry }
{
    forget(sources, register);
    write(sources, register, entry);
}

/// Goes over a node: what is known becomes what is known after it. `mov` of a register to itself alters nothing.
fn go_over(sources: &mut Registers<u8>, node: Node)
    ensures { sources.new ≡ copied_after sources.old node }
{
    match node {
        Node::Mov {
            to,
            from: Operand::Reg(source),
        } if source == to => {}
        Node::Mov {
            to,
            from: Operand::Reg(source),
        } => write_register(sources, to, Some(source)),
        Node::Mov { to, .. } | Node::Binary { to, .. } | Node::In { to } | Node::Ld { to, .. } => {
            write_register(sources, to, None)
        }
        _ => {}
    }
}

/// The entry of a register, if it names a register.
fn source_of(sources: &Registers<u8>, register: u8) -> Option<u8>
    ensures { result ≡ source_of sources.now register }
{
    entry(sources, register).filter(|source| *source < 8)
}

/// A register's entry in its place.
fn replaced(sources: &Registers<u8>, operand: Operand) -> Operand
    ensures { result ≡ copied_operand sources.now operand }
{
    match operand {
        Operand::Reg(register) => source_of(sources, register).map_or(operand, Operand::Reg),
        Operand::Num(_) => operand,
    }
}

fn is_copied(sources: &Registers<u8>, operand: Operand) -> bool
    ensures { result ≡ is_copied sources.now operand }
{
    match operand {
        Operand::Reg(register) => source_of(sources, register).is_some(),
        Operand::Num(_) => false,
    }
}

/// The node with the entries of the registers that it reads.
fn rewritten(sources: &Registers<u8>, node: Node) -> Node
    ensures { result ≡ copied_node sources.now node }
{
    on_operands(node, |operand| replaced(sources, operand))
}

/// Whether that is another node.
fn is_altered(sources: &Registers<u8>, node: Node) -> bool
    ensures { result ≡ any_operand (is_copied sources.now) node }
{
    any_operand(node, |operand| is_copied(sources, operand))
}

impl Analysis for Copies {
    ghost moves = { λ _. copied_moves };

    ghost sound = { λ a. copies_sound };

    fn start(&self) -> Copied {
        Some([None; 8])
    }

    fn flow(&self, fact: &Copied, node: Node, _exit: u8) -> Copied {
        let mut next = *fact;
        if let Some(sources) = &mut next {
            go_over(sources, node);
        }
        next
    }

    fn propose(&self, fact: &Copied, node: Node) -> Option<Proposal> {
        match fact {
            Some(sources) if is_altered(sources, node) => {
                Some(Proposal::one(rewritten(sources, node), 0, SET))
            }
            _ => None,
        }
    }
}
