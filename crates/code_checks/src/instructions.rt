//! The first instruction of a function that breaks a rule.

ghost use Rattle.std.specs.Prelude.{◌≡◌, ◌+◌, ◌<◌, ◌&&◌, length, replicate, IfOk, IfSome};
ghost use Rattle.std.specs.Option.{option_map};
ghost use Rattle.code_runs.specs.Checks as rule;
ghost use Rattle.code_checks.specs.DepthTable as spec;
ghost use Rattle.code_checks.specs.Seen as seen;

use crate::depth_table::{Arrival, depth_of, note, with_before};
use crate::depths::{before_next, depth_fits};
use crate::flow::{earlier, ends_well, goes_earlier, goes_later, later, left_by};
use crate::needs::{cells_there, counter_there, row_there};
use crate::rules::{Rule, RuleFault};
use cov_base::NoMemory;
use stack_ops::{Code, FunctionCode, Op};
use std::alloc::Global;

/// The first instruction of the function that breaks a rule of instructions among others, with the
/// rule; the place is its number in the function. Takes memory and time by the instructions.
pub fn instruction_fault(
    alloc: Global,
    code: &Code,
    function: &FunctionCode,
) -> Result<Option<RuleFault>, NoMemory>
    ensures value { IfOk result
        (λ found. seen.found found ≡ rule.broken code.now function.now) }
    ensures within { IfOk result
        (λ found. IfSome found (λ fault. fault.place < length function.now.ops)) }
{
    let mut table = vec![in alloc; Arrival::Nothing; function.ops.len()]?;
    Ok(first_fault(code, function, &function.ops, &mut table))
}

/// The same, over the instructions and a table with a place for each.
fn first_fault(
    code: &Code,
    function: &FunctionCode,
    ops: &[Op],
    table: &mut [Arrival],
) -> Option<RuleFault>
    requires ops { ops.now ≡ function.now.ops }
    requires table { spec.leds table.old ≡ replicate (length ops.now) rule.Led.Nothing }
    ensures value { seen.found result ≡ rule.broken code.now function.now }
    ensures within { IfSome result (λ fault. fault.place < length function.now.ops) }
{
    let mut before = Some(0);
    for (at, op) in ops.iter().enumerate() {
        match pass(code, function, at, op, before, table) {
            Ok(next) => before = next,
            Err(rule) => {
                return Some(RuleFault {
                    place: at as u64,
                    rule,
                });
            }
        }
    }
    None
}

/// Tests an instruction, to which `before` operands come from the one before it, and notes where it
/// leads: what it leaves to the next one, or the rule that it breaks.
fn pass(
    code: &Code,
    function: &FunctionCode,
    at: usize,
    op: &Op,
    before: Option<u32>,
    table: &mut [Arrival],
) -> Result<Option<u32>, Rule>
    requires within { at < length function.now.ops }
    requires long { length table.old ≡ length function.now.ops }
    ensures { spec.Passes code.now function.now at op.now before (spec.leds table.old)
        (spec.leds table.new) result }
{
    let led = with_before(before, table[at]);
    table[at] = led;
    if let Some(rule) = rule_at(code, function, at, op, led, table) {
        return Err(rule);
    }
    let depth = depth_of(led);
    note(table, later(op), left_by(op, depth));
    Ok(before_next(code, function, op, depth))
}

/// The first rule that an instruction breaks.
fn rule_at(
    code: &Code,
    function: &FunctionCode,
    at: usize,
    op: &Op,
    led: Arrival,
    table: &[Arrival],
) -> Option<Rule>
    requires within { at < length function.now.ops }
    requires long { length table.now ≡ length function.now.ops }
    ensures { option_map seen.rule_of result ≡ rule.broken_at code.now function.now at op.now
        (spec.depths_to (at + 1) (spec.leds table.now)) (spec.led_of led) }
{
    if !jumps_well(at, function.ops.len(), op) {
        return Some(Rule::Jump);
    }
    if !goes_earlier(at, earlier(op)) {
        return Some(Rule::BackJump);
    }
    if !depth_fits(code, function, at, op, led, table) {
        return Some(Rule::Depth);
    }
    if !cells_there(code, function, op) {
        return Some(Rule::Cell);
    }
    if !counter_there(function, op) {
        return Some(Rule::Counter);
    }
    if !row_there(function, op) {
        return Some(Rule::Row);
    }
    None
}

fn jumps_well(at: usize, size: usize, op: &Op) -> bool
    requires { at < size }
    ensures { result
        ≡ (rule.goes_later at size (rule.later op.now) && rule.ends_well at size op.now) }
{
    goes_later(at, size, later(op)) && ends_well(at, size, op)
}
