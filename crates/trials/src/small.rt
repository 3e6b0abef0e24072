// Arithmetic and branches on a dozen nodes each.
use crate::asked::{becomes, is_shut, proposed};
use crate::nodes::{binary, mov};
use analyses::arithmetic::Arithmetic;
use analyses::branches::Branches;
use analyses::reach::Reach;
use machine::node::{BinaryOp, Node, Operand};

const R1: Operand = Operand::Reg(1);

fn simplifies(node: Node, other: Node) -> bool {
    becomes(&Arithmetic, &Reach::REACHED, node, other, 8)
}

fn stays(node: Node) -> bool {
    proposed(&Arithmetic, &Reach::REACHED, node).is_none()
}

#[test]
fn arithmetic_makes_simpler(rt: HostRuntime) {
    assert!(rt; simplifies(mov(3, Operand::Reg(3)), Node::Skip));
    assert!(rt; simplifies(binary(BinaryOp::Add, R1, Operand::Num(0)), mov(0, R1)));
    assert!(rt; simplifies(binary(BinaryOp::Sub, R1, Operand::Num(0)), mov(0, R1)));
    assert!(rt; simplifies(binary(BinaryOp::Mul, R1, Operand::Num(1)), mov(0, R1)));
    assert!(rt; simplifies(binary(BinaryOp::Div, R1, Operand::Num(1)), mov(0, R1)));
    assert!(rt;
        simplifies(
            binary(BinaryOp::Mul, R1, Operand::Num(0)),
            mov(0, Operand::Num(0)),
        )
    );
}

#[test]
fn arithmetic_leaves_alone(rt: HostRuntime) {
    assert!(rt; stays(mov(3, Operand::Reg(4))));
    assert!(rt; stays(binary(BinaryOp::Add, Operand::Num(0), R1)));
    assert!(rt; stays(binary(BinaryOp::Mul, Operand::Num(1), R1)));
    assert!(rt; stays(binary(BinaryOp::Div, R1, Operand::Num(0))));
    assert!(rt; stays(binary(BinaryOp::Rem, R1, Operand::Num(1))));
    assert!(rt; stays(Node::Halt));
    assert!(rt; proposed(&Arithmetic, &Reach::NOWHERE, mov(3, Operand::Reg(3))).is_none());
}

fn taken(on: Operand) -> Option<u8> {
    match proposed(&Branches, &Reach::REACHED, Node::Br { on }) {
        Some((Node::Skip, way, 16)) => Some(way),
        _ => None,
    }
}

#[test]
fn branches_on_numbers(rt: HostRuntime) {
    assert_eq!(rt; taken(Operand::Num(0)), Some(1));
    assert_eq!(rt; taken(Operand::Num(1)), Some(0));
    assert_eq!(rt; taken(Operand::Num(4294967295)), Some(0));
    assert_eq!(rt; taken(R1), None);
    assert!(rt;
        is_shut(
            &Branches,
            &Reach::REACHED,
            Node::Br {
                on: Operand::Num(0),
            },
            0,
        )
    );
    assert!(rt;
        !is_shut(
            &Branches,
            &Reach::REACHED,
            Node::Br {
                on: Operand::Num(0),
            },
            1,
        )
    );
    assert!(rt;
        is_shut(
            &Branches,
            &Reach::REACHED,
            Node::Br {
                on: Operand::Num(7),
            },
            1,
        )
    );
    assert!(rt; !is_shut(&Branches, &Reach::REACHED, Node::Br { on: R1 }, 1));
    assert!(rt; is_shut(&Branches, &Reach::NOWHERE, Node::Skip, 0));
    assert!(rt;
        proposed(
            &Branches,
            &Reach::NOWHERE,
            Node::Br {
                on: Operand::Num(0),
            },
        )
        .is_none()
    );
}
