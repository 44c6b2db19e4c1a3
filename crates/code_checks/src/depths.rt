//! The rule of depths.

ghost use Rattle.std.specs.Prelude.{◌≡◌, ◌+◌, ◌<◌, ◌≤◌, length};
ghost use Rattle.code_runs.specs.Checks as rule;
ghost use Rattle.code_checks.specs.DepthTable as spec;

use crate::depth_table::{Arrival, depth_of};
use crate::flow::{earlier, falls};
use crate::shapes::{behind, returns_well, takes_in};
use stack_ops::{Code, FunctionCode, Op};

/// The earlier instruction has as many operands, where it isn't behind this one.
fn same_depth(table: &[Arrival], at: usize, depth: u32, to: Option<u32>) -> bool
    requires { at < length table.now }
    ensures { result
        ≡ rule.same_depth (spec.depths_to (at + 1) (spec.leds table.now)) depth to }
{
    let Some(to) = to else {
        return true;
    };
    let to = to as usize;
    if to > at {
        return false;
    }
    depth == depth_of(table[to])
}

/// The rule of depths at an instruction with so many operands.
fn depth_kept(
    code: &Code,
    function: &FunctionCode,
    at: usize,
    op: &Op,
    depth: u32,
    table: &[Arrival],
) -> bool
    requires { at < length table.now }
    ensures { result ≡ rule.depth_kept code.now function.now
        (spec.depths_to (at + 1) (spec.leds table.now)) op.now depth }
{
    if takes_in(&code.functions, function, op) > depth {
        return false;
    }
    if depth > function.depth {
        return false;
    }
    if behind(&code.functions, function, op, depth) > u64::from(function.depth) {
        return false;
    }
    if !returns_well(function, op, depth) {
        return false;
    }
    same_depth(table, at, depth, earlier(op))
}

/// The rule of depths at an instruction to which this leads.
pub fn depth_fits(
    code: &Code,
    function: &FunctionCode,
    at: usize,
    op: &Op,
    led: Arrival,
    table: &[Arrival],
) -> bool
    requires { at < length table.now }
    ensures { rule.unless result rule.Rule.Depth ≡ rule.by_depth code.now function.now
        (spec.depths_to (at + 1) (spec.leds table.now)) op.now (spec.led_of led) }
{
    match led {
        Arrival::Nothing => false,
        Arrival::With(depth) => depth_kept(code, function, at, op, depth, table),
        Arrival::Clash => false,
    }
}

/// What the operation with so many operands leaves to the one behind it.
pub fn before_next(code: &Code, function: &FunctionCode, op: &Op, depth: u32) -> Option<u32>
    requires { rule.behind code.now.functions function.now op.now depth ≤ function.now.depth }
    ensures { result ≡ rule.before_next code.now.functions function.now op.now depth }
{
    if !falls(op) {
        return None;
    }
    let left = behind(&code.functions, function, op, depth);
    prove!(left <= u64::from(function.depth));
    Some(left as u32)
}
