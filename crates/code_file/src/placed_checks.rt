//! What instructions and tables are among others, told at their places in a file.

ghost use Rattle.std.specs.Prelude.{◌≡◌, length, IfOk};
ghost use Rattle.code_file.specs.Reading.{placed_fault};
ghost use Rattle.code_file.specs.Taking as spec;

use crate::checked::fault_of;
use crate::fault::CodeFault;
use crate::taking_functions::Places;
use code_checks::{RuleFault, instruction_fault, table_word};
use cov_base::NoMemory;
use stack_ops::{Code, FunctionCode};
use std::alloc::Global;

/// What is wrong with the instructions of these functions, or with the words of their tables.
pub fn values_fault(
    alloc: Global,
    code: &Code,
    functions: &[FunctionCode],
    places: &[Places],
    end: u64,
) -> Result<Option<CodeFault>, NoMemory>
    requires many { length places.now ≡ length functions.now }
    requires fit { spec.FitAll end functions.now places.now }
    ensures { IfOk result (λ found. found
        ≡ placed_fault code.now (spec.all_placed functions.now places.now)) }
{
    for (k, function) in functions.iter().enumerate() {
        if let Some(fault) = function_fault(alloc, code, function, &places[k], end)? {
            return Ok(Some(fault));
        }
    }
    Ok(None)
}

/// The same of a function.
#[tactic(auto, using(crate::proofs::PlaceLaws::broken_found, crate::proofs::PlaceLaws::entry_found, crate::proofs::PlaceLaws::nothing_found))]
fn function_fault(
    alloc: Global,
    code: &Code,
    function: &FunctionCode,
    places: &Places,
    end: u64,
) -> Result<Option<CodeFault>, NoMemory>
    requires { spec.FitsPlaces end function.now places.now }
    ensures { IfOk result (λ found. found
        ≡ spec.function_fault code.now (spec.placed function.now places.now)) }
{
    if let Some(broken) = instruction_fault(alloc, code, function)? {
        return Ok(Some(fault_of(RuleFault {
            place: places.op_place(broken.place as usize),
            rule: broken.rule,
        })));
    }
    match table_word(function.paths, function.passes, &function.table) {
        Some(entry) => Ok(Some(CodeFault::Row(places.entry_place(entry, end)))),
        None => Ok(None),
    }
}
