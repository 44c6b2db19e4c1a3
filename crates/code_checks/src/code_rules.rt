//! The first rule that a code breaks.

ghost use Rattle.std.specs.Prelude.{◌≡◌, ◌+◌, ◌≤◌, length, None, IfOk, slice_get};
ghost use Rattle.code_runs.specs.Limits as limit;
ghost use Rattle.code_runs.specs.Tables.{layout_fault};
ghost use Rattle.code_runs.specs.CodeChecks as spec;
ghost use Rattle.code_checks.specs.Seen as seen;

use crate::instructions::instruction_fault;
use crate::numbers::items_fault;
use crate::rules::{Rule, RuleFault};
use crate::tables::table_word;
use cov_base::NoMemory;
use stack_ops::{Code, FunctionCode};
use std::alloc::Global;

/// The first rule that the code breaks, with its place: the items of all functions go before the
/// main function, and this before what instructions and tables are among others. Takes time by the
/// code, and memory for a number an instruction of one function.
pub fn code_fault(alloc: Global, code: &Code) -> Result<Option<RuleFault>, NoMemory>
    ensures { IfOk result (λ fault. seen.found fault ≡ spec.code_fault code.now) }
{
    if let Some(fault) = items_fault(code) {
        return Ok(Some(fault));
    }
    if !main_kept(code) {
        return Ok(Some(RuleFault {
            place: 0,
            rule: Rule::Field,
        }));
    }
    functions_values(alloc, code, &code.functions)
}

/// The main function is there, has no parameters and gives a number.
pub fn main_kept(code: &Code) -> bool
    ensures { result ≡ spec.main_kept (slice_get code.now.functions code.now.main) }
{
    match code.functions.get(code.main as usize) {
        Some(function) => function.params == 0 && function.gives,
        None => false,
    }
}

/// What is wrong with the instructions of these functions, or with the words of their tables.
fn functions_values(
    alloc: Global,
    code: &Code,
    functions: &[FunctionCode],
) -> Result<Option<RuleFault>, NoMemory>
    requires { spec.functions_items code.now 0 0 0 functions.now ≡ None }
    ensures { IfOk result
        (λ fault. seen.found fault ≡ spec.functions_values code.now 0 functions.now) }
{
    let mut start = 0;
    for function in functions {
        if let Some(fault) = function_values(alloc, code, start, function)? {
            return Ok(Some(fault));
        }
        start += function.ops.len() as u64;
    }
    Ok(None)
}

/// What is wrong with the instructions of a function, or with the words of its table.
fn function_values(
    alloc: Global,
    code: &Code,
    start: u64,
    function: &FunctionCode,
) -> Result<Option<RuleFault>, NoMemory>
    requires layout { layout_fault function.now.paths function.now.passes function.now.table
        ≡ None }
    requires start { start + length function.now.ops ≤ limit.instruction_limit }
    ensures { IfOk result
        (λ fault. seen.found fault ≡ spec.function_values code.now start function.now) }
{
    if let Some(fault) = instruction_fault(alloc, code, function)? {
        return Ok(Some(RuleFault {
            place: start + fault.place,
            rule: fault.rule,
        }));
    }
    match table_word(function.paths, function.passes, &function.table) {
        Some(place) => Ok(Some(RuleFault {
            place,
            rule: Rule::Row,
        })),
        None => Ok(None),
    }
}
