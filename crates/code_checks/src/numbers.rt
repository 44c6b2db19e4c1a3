//! The numbers of a code: those of its functions and instructions, and its globals.

ghost use Rattle.std.specs.Prelude.{◌≡◌, ◌+◌, ◌<◌, ◌≤◌, length, true};
ghost use Rattle.code_runs.specs.Limits as limit;
ghost use Rattle.code_runs.specs.CodeChecks as spec;
ghost use Rattle.code_checks.specs.Seen as seen;

use crate::limits::{CELL_LIMIT, DEPTH_LIMIT, INSTRUCTION_LIMIT, NUMBER_LIMIT, PATH_LIMIT};
use crate::rules::{Rule, RuleFault};
use crate::tables::{layout_fault, words_in};
use cov_base::{ARC_LIMIT, ARRAY_LIMIT, PARAMETER_LIMIT};
use stack_ops::{Code, FunctionCode, Op};

/// The number lies from -2^63 to 2^64 - 1.
fn is_number(n: i128) -> bool
    ensures { result ≡ spec.is_number n }
{
    i128::from(i64::MIN) <= n && n <= i128::from(u64::MAX)
}

/// The number of the instruction is one that may stand.
fn number_there(op: &Op) -> bool
    ensures { result ≡ spec.number_there op.now }
{
    match *op {
        Op::Push(n) => is_number(n),
        Op::CaseJump(n, _) => is_number(n),
        _ => true,
    }
}

/// A global that is no number.
fn globals_fault(globals: &[i128]) -> Option<RuleFault>
    ensures { seen.found result ≡ spec.globals_fault globals.now }
{
    for n in globals {
        if !is_number(*n) {
            return Some(RuleFault {
                place: 0,
                rule: Rule::Field,
            });
        }
    }
    None
}

/// The first instruction whose number is none; the first of these has the number `start`.
fn numbers_fault(start: u64, ops: &[Op]) -> Option<RuleFault>
    requires { start + length ops.now ≤ limit.instruction_limit }
    ensures { seen.found result ≡ spec.numbers_fault start ops.now }
{
    for (i, op) in ops.iter().enumerate() {
        if !number_there(op) {
            return Some(RuleFault {
                place: start + i as u64,
                rule: Rule::Opcode,
            });
        }
    }
    None
}

/// The numbers of the function are within their limits.
fn limits_kept(function: &FunctionCode) -> bool
    ensures { result ≡ spec.limits_kept function.now }
{
    if function.params > function.cells {
        return false;
    }
    if function.ops.is_empty() {
        return false;
    }
    if function.params as usize > PARAMETER_LIMIT {
        return false;
    }
    if function.cells > CELL_LIMIT || function.depth > DEPTH_LIMIT {
        return false;
    }
    if function.counters as usize > ARC_LIMIT || function.paths > PATH_LIMIT {
        return false;
    }
    if function.passes as usize > ARC_LIMIT {
        return false;
    }
    function.paths > 0 || function.passes == 0
}

/// A function of a code that doesn't count has no counters, no paths and no checksum.
fn counts_nothing(function: &FunctionCode) -> bool
    ensures { result ≡ spec.counts_nothing function.now }
{
    function.counters == 0 && function.paths == 0 && function.checksum == 0
}

/// How many counters and path words the function has.
fn numbers_in(function: &FunctionCode) -> u64
    ensures { result ≡ spec.numbers_in function.now }
{
    u64::from(function.counters) + words_in(function.paths)
}

/// The numbers of a function keep the rules, where the functions before it have so many counters
/// and path words, and so many instructions.
fn fields_kept(code: &Code, numbers: u64, start: u64, function: &FunctionCode) -> bool
    requires numbers { numbers ≤ limit.number_limit }
    requires start { start ≤ limit.instruction_limit }
    ensures { result ≡ spec.fields_kept code.now numbers start function.now }
{
    if !limits_kept(function) {
        return false;
    }
    if !code.covered && !counts_nothing(function) {
        return false;
    }
    if numbers + numbers_in(function) > NUMBER_LIMIT {
        return false;
    }
    function.ops.len() as u64 <= INSTRUCTION_LIMIT - start
}

/// What is wrong with the items of a function, which has the number `place`.
fn function_items(
    code: &Code,
    place: u64,
    numbers: u64,
    start: u64,
    function: &FunctionCode,
) -> Option<RuleFault>
    requires numbers { numbers ≤ limit.number_limit }
    requires start { start ≤ limit.instruction_limit }
    ensures { seen.found result
        ≡ spec.function_items code.now place numbers start function.now }
{
    if !fields_kept(code, numbers, start, function) {
        return Some(RuleFault {
            place,
            rule: Rule::Field,
        });
    }
    if let Some(fault) = numbers_fault(start, &function.ops) {
        return Some(fault);
    }
    layout_fault(function.paths, function.passes, &function.table)
}

fn functions_items(code: &Code, functions: &[FunctionCode]) -> Option<RuleFault>
    ensures { seen.found result ≡ spec.functions_items code.now 0 0 0 functions.now }
{
    let mut numbers = 0;
    let mut start = 0;
    for (k, function) in functions.iter().enumerate() {
        if let Some(fault) = function_items(code, k as u64, numbers, start, function) {
            return Some(fault);
        }
        numbers += numbers_in(function);
        start += function.ops.len() as u64;
    }
    None
}

/// What is wrong with the items of a code.
pub fn items_fault(code: &Code) -> Option<RuleFault>
    ensures { seen.found result ≡ spec.items_fault code.now }
{
    if code.globals.len() as u64 > ARRAY_LIMIT {
        return Some(RuleFault {
            place: 0,
            rule: Rule::Field,
        });
    }
    if let Some(fault) = globals_fault(&code.globals) {
        return Some(fault);
    }
    functions_items(code, &code.functions)
}
