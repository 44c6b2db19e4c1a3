//! Each call with ample memory: a stack, the input and the output, a program as plain data, and operators by way of the machine.

ghost use Rattle.std.specs.Prelude.{◌≡◌, [], ◌∷◌, map, pos, IfOk};

use crate::by_stack;
use int_ops::{BinOp, IntType};
use stack_ops::{Code, FunctionCode, Op, OpStack, Outcome, RunIo, Trap, step_op};
use std::alloc::{AllocError, Global};
use std::test::Fail;

#[test]
fn a_stack_holds_two_numbers(rt: HostRuntime) -> Result<(), Fail> {
    let mut stack = OpStack::with_room(rt.alloc(), 2)?;
    let mut io = RunIo::new(rt.alloc(), 0)?;
    let mut none: [i128; 0] = [];
    let mut no_globals: [i128; 0] = [];
    let pushed = step_op(
        &Op::Push(5),
        &mut stack,
        &mut none,
        &mut no_globals,
        &mut io,
    );
    assert_eq!(rt; pushed, Ok(()));
    let doubled = step_op(&Op::Dup, &mut stack, &mut none, &mut no_globals, &mut io);
    assert_eq!(rt; doubled, Ok(()));
    assert_eq!(rt; stack.numbers(), [5, 5].as_slice());
    let dropped = step_op(&Op::Drop, &mut stack, &mut none, &mut no_globals, &mut io);
    assert_eq!(rt; dropped, Ok(()));
    assert_eq!(rt; stack.numbers(), [5].as_slice());
    stack.push(6);
    assert_eq!(rt; stack.pop(), 6);
    Ok(())
}

#[test]
fn an_output_ends_at_its_limit(rt: HostRuntime) -> Result<(), Fail> {
    let mut stack = OpStack::with_room(rt.alloc(), 1)?;
    let mut io = RunIo::new(rt.alloc(), 1)?;
    let mut none: [i128; 0] = [];
    let mut no_globals: [i128; 0] = [];
    stack.push(321);
    let first = step_op(
        &Op::PutChar(3),
        &mut stack,
        &mut none,
        &mut no_globals,
        &mut io,
    );
    assert_eq!(rt; first, Ok(()));
    assert_eq!(rt; stack.numbers(), [65].as_slice());
    assert_eq!(rt; io.output(), [65].as_slice());
    let second = step_op(
        &Op::PutChar(4),
        &mut stack,
        &mut none,
        &mut no_globals,
        &mut io,
    );
    assert_eq!(rt; second, Err((Trap::OutputLimit, 4)));
    assert_eq!(rt; io.output(), [65].as_slice());
    io.clear();
    assert_eq!(rt; io.output(), [].as_slice());
    Ok(())
}

#[test]
fn an_input_ends_with_minus_one(rt: HostRuntime) -> Result<(), Fail> {
    let mut stack = OpStack::with_room(rt.alloc(), 2)?;
    let mut io = RunIo::new(rt.alloc(), 0)?;
    let mut none: [i128; 0] = [];
    let mut no_globals: [i128; 0] = [];
    io.give(&[97])?;
    let first = step_op(
        &Op::GetChar,
        &mut stack,
        &mut none,
        &mut no_globals,
        &mut io,
    );
    assert_eq!(rt; first, Ok(()));
    let second = step_op(
        &Op::GetChar,
        &mut stack,
        &mut none,
        &mut no_globals,
        &mut io,
    );
    assert_eq!(rt; second, Ok(()));
    assert_eq!(rt; stack.numbers(), [97, -1].as_slice());
    Ok(())
}

/// A program whose main function pushes 0 and returns it.
fn smallest(alloc: Global) -> Result<Code, AllocError>
    ensures program { IfOk result (λ code. (code.main ≡ 0) × (code.globals ≡ [])) }
    ensures operations { IfOk result (λ code.
        map (λ function. function.ops) code.functions ≡ (Op.Push (pos 0) ∷ Op.Return ∷ []) ∷ []) }
{
    let main = FunctionCode {
        params: 0,
        cells: 0,
        depth: 1,
        gives: true,
        checksum: 0,
        counters: 0,
        paths: 0,
        passes: 0,
        ops: vec![in alloc; Op::Push(0), Op::Return]?,
        table: Vec::new(alloc),
    };
    Ok(Code {
        stamp: 0,
        covered: false,
        main: 0,
        globals: Vec::new(alloc),
        functions: vec![in alloc; main]?,
    })
}

#[test]
fn a_program_is_plain_data(rt: HostRuntime) -> Result<(), Fail> {
    let code = smallest(rt.alloc())?;
    assert_eq!(rt; code.functions.len(), 1);
    assert_eq!(rt;
        code.functions[0].ops.as_slice(),
        [Op::Push(0), Op::Return].as_slice()
    );
    assert_ne!(rt; Outcome::Returned(0), Outcome::Trapped(Trap::CallDepth, 1));
    Ok(())
}

#[test]
fn operators_go_by_way_of_the_machine(rt: HostRuntime) -> Result<(), Fail> {
    let int = IntType::Int;
    // Each operator with its number for 12 and 10.
    let rows: [(BinOp, i128); 16] = [
        (BinOp::Mul, 120),
        (BinOp::Div, 1),
        (BinOp::Rem, 2),
        (BinOp::Add, 22),
        (BinOp::Sub, 2),
        (BinOp::Shl, 12_288),
        (BinOp::Shr, 0),
        (BinOp::Less, 0),
        (BinOp::Greater, 1),
        (BinOp::LessEqual, 0),
        (BinOp::GreaterEqual, 1),
        (BinOp::Equal, 0),
        (BinOp::NotEqual, 1),
        (BinOp::And, 8),
        (BinOp::Xor, 6),
        (BinOp::Or, 14),
    ];
    for (op, number) in rows {
        let answer = by_stack(rt.alloc(), op, int, 12, 10)?;
        assert_eq!(rt; answer, Ok(number), "of {op:?}");
    }
    let sum = by_stack(rt.alloc(), BinOp::Add, int, 2_147_483_647, 1)?;
    assert_eq!(rt; sum, Err(Trap::Overflow));
    let wrapped = by_stack(
        rt.alloc(),
        BinOp::Add,
        IntType::UnsignedInt,
        4_294_967_295,
        1,
    )?;
    assert_eq!(rt; wrapped, Ok(0));
    let quotient = by_stack(rt.alloc(), BinOp::Div, int, 12, 0)?;
    assert_eq!(rt; quotient, Err(Trap::DivideByZero));
    let shifted = by_stack(rt.alloc(), BinOp::Shl, int, 12, 32)?;
    assert_eq!(rt; shifted, Err(Trap::ShiftRange));
    Ok(())
}
