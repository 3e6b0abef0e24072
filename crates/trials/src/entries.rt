// Constants and copies on a dozen nodes each.
use crate::asked::{after, becomes, proposed};
use crate::nodes::{binary, mov};
use analyses::constants::{Constants, Known};
use analyses::copies::{Copied, Copies};
use analyses::entries::Entries;
use analysis::analysis::{Analysis, Facts};
use machine::node::{BinaryOp, Node, Operand};

// The fixtures of constants stand here and those of copies below, each with its own values.
/// r1 is 6 and r2 is 0.
fn known() -> Known {
    Some([None, Some(6), Some(0), None, None, None, None, None])
}

/// The entry of a register, where a run comes and it is present.
fn entry<T: Copy>(fact: &Entries<T>, register: usize) -> Option<T> {
    fact.as_ref()?.get(register).copied().flatten()
}

fn folds(node: Node, other: Node) -> bool {
    becomes(&Constants, &known(), node, other, 2)
}

#[test]
fn constants_propose(rt: HostRuntime) {
    let r0 = Operand::Reg(0);
    let r1 = Operand::Reg(1);
    let r2 = Operand::Reg(2);
    assert!(rt; folds(mov(0, r1), mov(0, Operand::Num(6))));
    assert!(rt; folds(binary(BinaryOp::Add, r1, r1), mov(0, Operand::Num(12))));
    assert!(rt;
        folds(
            binary(BinaryOp::Sub, r2, r1),
            mov(0, Operand::Num(4294967290)),
        )
    );
    assert!(rt;
        folds(
            binary(BinaryOp::Div, r1, r2),
            binary(BinaryOp::Div, Operand::Num(6), Operand::Num(0)),
        )
    );
    assert!(rt;
        folds(
            binary(BinaryOp::Mul, r0, r1),
            binary(BinaryOp::Mul, r0, Operand::Num(6)),
        )
    );
    assert!(rt;
        folds(
            Node::Out { from: r1 },
            Node::Out {
                from: Operand::Num(6),
            },
        )
    );
    assert!(rt;
        folds(
            Node::St { cell: 9, from: r2 },
            Node::St {
                cell: 9,
                from: Operand::Num(0),
            },
        )
    );
    assert!(rt;
        folds(
            Node::Br { on: r2 },
            Node::Br {
                on: Operand::Num(0),
            },
        )
    );
    let zero = binary(BinaryOp::Div, Operand::Num(6), Operand::Num(0));
    assert!(rt; proposed(&Constants, &known(), zero).is_none());
    assert!(rt; proposed(&Constants, &known(), mov(0, r0)).is_none());
    assert!(rt; proposed(&Constants, &known(), Node::Ld { to: 1, cell: 0 }).is_none());
    let nowhere = Constants.nowhere();
    assert!(rt; proposed(&Constants, &nowhere, mov(0, r1)).is_none());
}

#[test]
fn constants_flow_and_join(rt: HostRuntime) {
    let sum = binary(BinaryOp::Add, Operand::Reg(1), Operand::Num(1));
    assert_eq!(rt; entry(&after(&Constants, &known(), sum), 0), Some(7));
    let input = Node::In { to: 1 };
    assert_eq!(rt; entry(&after(&Constants, &known(), input), 1), None);
    let mut fact = known();
    assert!(rt; !Constants.join(&mut fact, &known()));
    let other = Some([None, Some(5), Some(0), None, None, None, None, None]);
    assert!(rt; Constants.join(&mut fact, &other));
    assert_eq!(rt; entry(&fact, 1), None);
    assert_eq!(rt; entry(&fact, 2), Some(0));
}

/// r1 and r2 are copies of r0.
fn copied() -> Copied {
    Some([None, Some(0), Some(0), None, None, None, None, None])
}

fn copies(node: Node, other: Node) -> bool {
    becomes(&Copies, &copied(), node, other, 4)
}

#[test]
fn copies_propose(rt: HostRuntime) {
    let r0 = Operand::Reg(0);
    let r1 = Operand::Reg(1);
    let r2 = Operand::Reg(2);
    assert!(rt; copies(mov(5, r1), mov(5, r0)));
    assert!(rt; copies(binary(BinaryOp::Xor, r1, r2), binary(BinaryOp::Xor, r0, r0)));
    assert!(rt; copies(Node::Out { from: r2 }, Node::Out { from: r0 }));
    assert!(rt; copies(Node::Br { on: r1 }, Node::Br { on: r0 }));
    assert!(rt; proposed(&Copies, &copied(), mov(1, r0)).is_none());
    assert!(rt; proposed(&Copies, &copied(), Node::Skip).is_none());
    let nowhere = Copies.nowhere();
    assert!(rt; proposed(&Copies, &nowhere, mov(5, r1)).is_none());
}

#[test]
fn copies_flow(rt: HostRuntime) {
    let input = Node::In { to: 0 };
    let written = after(&Copies, &copied(), input);
    assert_eq!(rt; entry(&written, 1), None);
    assert_eq!(rt; entry(&written, 2), None);
    let same = mov(1, Operand::Reg(1));
    assert_eq!(rt; entry(&after(&Copies, &copied(), same), 1), Some(0));
    let copy = mov(3, Operand::Reg(4));
    assert_eq!(rt; entry(&after(&Copies, &copied(), copy), 3), Some(4));
    let number = mov(1, Operand::Num(4));
    assert_eq!(rt; entry(&after(&Copies, &copied(), number), 1), None);
}
