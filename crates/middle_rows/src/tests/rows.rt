//! A row for each operation that is one step, worked out from the table of operations by hand.

use super::step_on;
use int_ops::IntType;
use stack_ops::{Op, RunIo, Trap};
use std::test::Fail;

/// The cells before each row.
const LOCALS: [i128; 4] = [10, 20, 30, 40];

/// The globals before each row.
const GLOBALS: [i128; 4] = [50, 60, 70, 80];

#[test]
fn each_operation_makes_these_operands(rt: HostRuntime) -> Result<(), Fail> {
    let int = IntType::Int;
    // The operation, and the operands before and after it, the top last.
    let rows: [(Op, &[i128], &[i128]); 36] = [
        (Op::Push(5), &[], &[5]),
        (Op::Dup, &[4, 5], &[4, 5, 5]),
        (Op::Drop, &[4, 5], &[4]),
        (Op::Swap, &[4, 5], &[5, 4]),
        (Op::Over, &[4, 5], &[4, 5, 4]),
        (Op::Convert(IntType::UnsignedChar), &[-1], &[255]),
        (Op::Not, &[0], &[1]),
        (Op::LoadLocal(1), &[5], &[5, 20]),
        (Op::StoreLocal(1), &[5], &[5]),
        (Op::LoadGlobal(2), &[5], &[5, 70]),
        (Op::StoreGlobal(2), &[5], &[5]),
        (Op::CheckIndex(4, 9), &[3], &[3]),
        (Op::LoadLocalAt(1, 3), &[2], &[40]),
        (Op::StoreLocalAt(1, 3), &[2, 5], &[5]),
        (Op::LoadGlobalAt(1, 3), &[0], &[60]),
        (Op::StoreGlobalAt(1, 3), &[0, 5], &[5]),
        (Op::Mul(int, 9), &[6, 7], &[42]),
        (Op::Div(int, 9), &[-7, 2], &[-3]),
        (Op::Rem(int, 9), &[-7, 2], &[-1]),
        (Op::Add(int, 9), &[2_147_483_646, 1], &[2_147_483_647]),
        (Op::Sub(int, 9), &[3, 5], &[-2]),
        (Op::Shl(int, 9), &[3, 4], &[48]),
        (Op::Shr(int, 9), &[-5, 1], &[-3]),
        (Op::Less(int, 9), &[1, 2], &[1]),
        (Op::Greater(int, 9), &[1, 2], &[0]),
        (Op::LessEqual(int, 9), &[2, 2], &[1]),
        (Op::GreaterEqual(int, 9), &[1, 2], &[0]),
        (Op::Equal(int, 9), &[2, 2], &[1]),
        (Op::NotEqual(int, 9), &[2, 2], &[0]),
        (Op::And(int, 9), &[12, 10], &[8]),
        (Op::Xor(int, 9), &[12, 10], &[6]),
        (Op::Or(int, 9), &[12, 10], &[14]),
        (Op::Minus(int, 9), &[5], &[-5]),
        (Op::Complement(int, 9), &[5], &[-6]),
        (Op::GetChar, &[], &[97]),
        (Op::PutChar(9), &[321], &[65]),
    ];
    for (op, before, after) in rows {
        let mut io = RunIo::new(rt.alloc(), 1)?;
        io.give(b"a")?;
        let mut locals = LOCALS;
        let mut globals = GLOBALS;
        let (answer, stack) = step_on(
            &rt,
            rt.alloc(),
            &op,
            before,
            &mut locals,
            &mut globals,
            &mut io,
        )?;
        assert_eq!(rt; answer, Ok(()), "at {op:?}");
        assert_eq!(rt; stack.numbers(), after, "after {op:?}");
    }
    Ok(())
}

#[test]
fn stores_set_one_cell(rt: HostRuntime) -> Result<(), Fail> {
    // The operation, the operands before it, and the cells and the globals after it.
    let rows: [(Op, &[i128], [i128; 4], [i128; 4]); 4] = [
        (Op::StoreLocal(1), &[5], [10, 5, 30, 40], GLOBALS),
        (Op::StoreGlobal(2), &[5], LOCALS, [50, 60, 5, 80]),
        (Op::StoreLocalAt(1, 3), &[2, 5], [10, 20, 30, 5], GLOBALS),
        (Op::StoreGlobalAt(1, 3), &[0, 5], LOCALS, [50, 5, 70, 80]),
    ];
    for (op, before, locals_after, globals_after) in rows {
        let mut io = RunIo::new(rt.alloc(), 0)?;
        let mut locals = LOCALS;
        let mut globals = GLOBALS;
        step_on(
            &rt,
            rt.alloc(),
            &op,
            before,
            &mut locals,
            &mut globals,
            &mut io,
        )?
        .0
        .ok()
        .ok_or("a trap")?;
        assert_eq!(rt; locals, locals_after, "after {op:?}");
        assert_eq!(rt; globals, globals_after, "after {op:?}");
    }
    Ok(())
}

#[test]
fn traps_come_with_their_line_and_change_nothing(rt: HostRuntime) -> Result<(), Fail> {
    let int = IntType::Int;
    // The operation, the operands, and the trap with its line.
    let rows: [(Op, &[i128], (Trap, u32)); 9] = [
        (Op::Add(int, 3), &[2_147_483_647, 1], (Trap::Overflow, 3)),
        (Op::Minus(int, 4), &[-2_147_483_648], (Trap::Overflow, 4)),
        (Op::Div(int, 5), &[5, 0], (Trap::DivideByZero, 5)),
        (Op::Shl(int, 6), &[5, 32], (Trap::ShiftRange, 6)),
        (Op::CheckIndex(4, 7), &[4], (Trap::BadIndex, 7)),
        (Op::CheckIndex(4, 7), &[-1], (Trap::BadIndex, 7)),
        (Op::LoadLocalAt(1, 3), &[3], (Trap::BadIndex, 0)),
        (Op::StoreGlobalAt(1, 3), &[-1, 5], (Trap::BadIndex, 0)),
        (Op::PutChar(8), &[5], (Trap::OutputLimit, 8)),
    ];
    for (op, operands, trap) in rows {
        let mut io = RunIo::new(rt.alloc(), 0)?;
        let mut locals = LOCALS;
        let mut globals = GLOBALS;
        let (answer, stack) = step_on(
            &rt,
            rt.alloc(),
            &op,
            operands,
            &mut locals,
            &mut globals,
            &mut io,
        )?;
        assert_eq!(rt; answer, Err(trap), "at {op:?}");
        assert_eq!(rt; stack.numbers(), operands, "after {op:?}");
        assert_eq!(rt; locals, LOCALS);
        assert_eq!(rt; globals, GLOBALS);
    }
    Ok(())
}
