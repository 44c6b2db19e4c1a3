//! A code that breaks no rule.

ghost use Rattle.std.specs.Prelude.{◌≡◌, None};
ghost use Rattle.code_runs.specs.CodeChecks.{code_fault};
ghost use Rattle.code_file.specs.Checking as spec;

use crate::fault::CodeFault;
use code_checks::{Rule, RuleFault};
use cov_base::Refusal;
use stack_ops::Code;
use std::alloc::Global;
use std::marker::Model;

/// A code that breaks no rule: its runs are never stuck.
#[derive(Drop)]
pub struct Checked {
    code: Code,
}

impl Model for Checked {
    ghost use Rattle.std.specs.Prelude.{◌≡◌, None};
    ghost use Rattle.stack_ops.specs.Code.{CodeValue};
    ghost use Rattle.code_runs.specs.CodeChecks.{code_fault};

    ghost Value = { CodeValue };

    ghost view = { λ c. c.code };

    ghost invariant = { λ c. code_fault c.code ≡ None };
}

impl Checked {
    /// The code, where it breaks no rule; else the first rule that it breaks. The place is the
    /// number of the instruction, counted through all functions; for `Field` the number of the
    /// function, or 0 for the code's own numbers; in a table the place in it. Takes time by the
    /// code, and memory for a number an instruction of one function.
    pub fn of(alloc: Global, code: Code) -> Result<Checked, Refusal<CodeFault>>
        ensures { spec.Checks code result }
    {
        match code_checks::code_fault(alloc, &code) {
            Ok(None) => Ok(Checked { code }),
            Ok(Some(broken)) => Err(Refusal::Refused(fault_of(broken))),
            Err(_) => Err(Refusal::NoMemory),
        }
    }

    /// The code.
    pub fn code(&self) -> &Code
        ensures value { result.now ≡ self.now }
        ensures kept { code_fault self.now ≡ None }
    {
        &self.code
    }

    /// The code, for whoever changes it.
    pub fn into_code(self) -> Code
        ensures value { result ≡ self }
        ensures kept { code_fault result ≡ None }
    {
        self.code
    }
}

/// A code that is known to break no rule.
pub fn kept(code: Code) -> Checked
    requires { code_fault code ≡ None }
    ensures { result ≡ code }
{
    Checked { code }
}

/// The fault of a broken rule at its place.
pub fn fault_of(broken: RuleFault) -> CodeFault
    ensures { result ≡ spec.fault_at broken }
{
    let place = broken.place;
    match broken.rule {
        Rule::Field => CodeFault::Field(place),
        Rule::Opcode => CodeFault::Opcode(place),
        Rule::Jump => CodeFault::Jump(place),
        Rule::BackJump => CodeFault::BackJump(place),
        Rule::Depth => CodeFault::Depth(place),
        Rule::Cell => CodeFault::Cell(place),
        Rule::Counter => CodeFault::Counter(place),
        Rule::Row => CodeFault::Row(place),
    }
}
