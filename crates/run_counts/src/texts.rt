//! The text of a run.

ghost use Rattle.std.specs.Prelude.{◌≡◌, ◌++◌, OnOk, IfOk};
ghost use Rattle.std.specs.Fmt.{decimal};
ghost use Rattle.run_counts.specs.Texts as spec;

use itoa::Buffer;
use stack_ops::{Outcome, Trap};
use std::alloc::{AllocError, Global};

/// Whether the program returned or exited.
pub fn is_closed(outcome: Outcome) -> bool
    ensures { result ≡ spec.is_closed outcome }
{
    matches!(outcome, Outcome::Returned(_) | Outcome::Exited(_))
}

/// A trap in words.
#[tactic(auto, unfolding(crate::specs::Texts::trap_words))]
fn trap_words(trap: Trap) -> &'static [u8]
    ensures { result.now ≡ spec.trap_words trap }
{
    match trap {
        Trap::Overflow => b"overflow",
        Trap::DivideByZero => b"divide by zero",
        Trap::ShiftRange => b"shift range",
        Trap::BadIndex => b"bad index",
        Trap::CallDepth => b"call depth",
        Trap::OutputLimit => b"output limit",
    }
}

/// Appends a number in decimal.
fn push_number(out: &mut Vec<u8>, n: u64) -> Result<(), AllocError>
    ensures { OnOk result (out.new.items ≡ out.old.items ++ decimal n) }
{
    out.extend_from_slice(Buffer::new().format(n).as_bytes())?;
    Ok(())
}

/// Appends a trap and its line.
#[tactic(auto, unfolding(crate::specs::Texts::trap_text))]
fn push_trap(out: &mut Vec<u8>, trap: Trap, line: u32) -> Result<(), AllocError>
    ensures { OnOk result (out.new.items ≡ out.old.items ++ spec.trap_text trap line) }
{
    out.extend_from_slice(b"trapped ")?;
    out.extend_from_slice(trap_words(trap))?;
    out.extend_from_slice(b" at line ")?;
    push_number(out, u64::from(line))?;
    Ok(())
}

/// Appends an ending in words.
#[tactic(auto, unfolding(crate::specs::Texts::ending_text))]
fn push_ending(out: &mut Vec<u8>, ending: Outcome) -> Result<(), AllocError>
    ensures { OnOk result (out.new.items ≡ out.old.items ++ spec.ending_text ending) }
{
    match ending {
        Outcome::Returned(status) => {
            out.extend_from_slice(b"returned ")?;
            push_number(out, u64::from(status))?;
        }
        Outcome::Exited(status) => {
            out.extend_from_slice(b"exited ")?;
            push_number(out, u64::from(status))?;
        }
        Outcome::Trapped(trap, line) => push_trap(out, trap, line)?,
        Outcome::OutOfTurns => out.extend_from_slice(b"out of turns")?,
    }
    Ok(())
}

/// Appends an output and a newline, or nothing where there is no output.
fn push_output(out: &mut Vec<u8>, output: &[u8]) -> Result<(), AllocError>
    ensures { OnOk result (out.new.items ≡ out.old.items ++ spec.output_text output.now) }
{
    if output.is_empty() {
        return Ok(());
    }
    out.extend_from_slice(output)?;
    out.push(b'\n')?;
    Ok(())
}

/// The text of a run on the input of this name.
#[tactic(auto, unfolding(crate::specs::Texts::run_text))]
pub fn run_text(
    alloc: Global,
    name: &str,
    ending: Outcome,
    output: &[u8],
) -> Result<Vec<u8>, AllocError>
    ensures { IfOk result (λ text. text.items ≡ spec.run_text name.now ending output.now) }
{
    let mut out = Vec::from_slice(alloc, b"run ")?;
    out.extend_from_slice(name.as_bytes())?;
    out.extend_from_slice(b": ")?;
    push_ending(&mut out, ending)?;
    out.extend_from_slice(b", ")?;
    push_number(&mut out, output.len() as u64)?;
    out.extend_from_slice(b" bytes\n")?;
    push_output(&mut out, output)?;
    Ok(out)
}
