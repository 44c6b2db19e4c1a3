//! Where instructions go.

ghost use Rattle.std.specs.Prelude.{◌≡◌, ◌<◌};
ghost use Rattle.code_runs.specs.Checks as spec;

use stack_ops::Op;

/// The later instruction to which the operation may go.
pub fn later(op: &Op) -> Option<u32>
    ensures { result ≡ spec.later op.now }
{
    match *op {
        Op::Jump(to) => Some(to),
        Op::IfZero(to) => Some(to),
        Op::IfNot(to) => Some(to),
        Op::CaseJump(_, to) => Some(to),
        _ => None,
    }
}

/// The earlier one, or itself.
pub fn earlier(op: &Op) -> Option<u32>
    ensures { result ≡ spec.earlier op.now }
{
    match *op {
        Op::Back(to) => Some(to),
        _ => None,
    }
}

/// The operation leads to the one behind it.
pub fn falls(op: &Op) -> bool
    ensures { result ≡ spec.falls op.now }
{
    match *op {
        Op::Jump(_) => false,
        Op::Back(_) => false,
        Op::Return => false,
        Op::Exit => false,
        _ => true,
    }
}

/// How many operands are left where the operation goes to its later one, if there were so many.
pub fn left_by(op: &Op, depth: u32) -> u32
    ensures { result ≡ spec.left_by op.now depth }
{
    match *op {
        Op::Jump(_) => depth,
        _ => depth.saturating_sub(1),
    }
}

/// A later instruction is behind this one and in the function.
pub fn goes_later(at: usize, size: usize, to: Option<u32>) -> bool
    ensures { result ≡ spec.goes_later at size to }
{
    match to {
        None => true,
        Some(to) => at < to as usize && (to as usize) < size,
    }
}

/// The last instruction doesn't lead to the one behind it.
pub fn ends_well(at: usize, size: usize, op: &Op) -> bool
    requires { at < size }
    ensures { result ≡ spec.ends_well at size op.now }
{
    !falls(op) || at + 1 < size
}

/// An earlier instruction isn't behind this one.
pub fn goes_earlier(at: usize, to: Option<u32>) -> bool
    ensures { result ≡ spec.goes_earlier at to }
{
    match to {
        None => true,
        Some(to) => to as usize <= at,
    }
}
