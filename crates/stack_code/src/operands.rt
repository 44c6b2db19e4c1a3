//! The operands that operations take and give.

ghost use Rattle.std.specs.Prelude.{◌≡◌, ◌≤◌};
ghost use Rattle.stack_ops.specs.Shapes as shapes;

use stack_ops::Op;

/// How many operands an operation takes. What a call or a return takes isn't counted here.
pub fn takes(op: &Op) -> u32
    ensures { result ≡ shapes.takes op.now }
{
    match *op {
        Op::Push(_) | Op::LoadLocal(_) | Op::LoadGlobal(_) | Op::GetChar => 0,
        Op::Jump(_) | Op::Back(_) | Op::Call(_, _) | Op::Return => 0,
        Op::Count(_) | Op::PathBegin | Op::PathPass(_) => 0,
        Op::Dup | Op::Drop | Op::Convert(_) | Op::Not | Op::PutChar(_) => 1,
        Op::StoreLocal(_) | Op::StoreGlobal(_) | Op::CheckIndex(_, _) => 1,
        Op::LoadLocalAt(_, _) | Op::LoadGlobalAt(_, _) => 1,
        Op::Minus(_, _) | Op::Complement(_, _) => 1,
        Op::IfZero(_) | Op::IfNot(_) | Op::CaseJump(_, _) | Op::Exit => 1,
        _ => 2,
    }
}

/// How many operands an operation gives. What a call gives isn't counted here.
pub fn gives(op: &Op) -> u32
    ensures value { result ≡ shapes.gives op.now }
    ensures few { result ≤ 3 }
{
    match *op {
        Op::Drop | Op::IfZero(_) | Op::IfNot(_) | Op::Exit => 0,
        Op::Jump(_) | Op::Back(_) | Op::Call(_, _) | Op::Return => 0,
        Op::Count(_) | Op::PathBegin | Op::PathPass(_) => 0,
        Op::Dup | Op::Swap => 2,
        Op::Over => 3,
        _ => 1,
    }
}
