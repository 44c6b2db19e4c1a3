//! The names of a program's files.

ghost use Rattle.std.specs.Prelude.{◌≡◌, string_bytes, IfOk};
ghost use Rattle.command_steps.specs.Names as spec;

use std::alloc::{AllocError, Global};

/// The name of a program's code file.
pub fn code_name(alloc: Global, name: &str) -> Result<String, AllocError>
    ensures { IfOk result (λ file. string_bytes file ≡ spec.code_name name.now) }
{
    format!(in alloc; "{name}.code")
}

/// The name of a program's file of notes.
pub fn notes_name(alloc: Global, name: &str) -> Result<String, AllocError>
    ensures { IfOk result (λ file. string_bytes file ≡ spec.notes_name name.now) }
{
    format!(in alloc; "{name}.gcno")
}

/// The name of a program's file of data.
pub fn data_name(alloc: Global, name: &str) -> Result<String, AllocError>
    ensures { IfOk result (λ file. string_bytes file ≡ spec.data_name name.now) }
{
    format!(in alloc; "{name}.gcda")
}

/// The name of a program's source.
pub fn source_name(alloc: Global, name: &str) -> Result<String, AllocError>
    ensures { IfOk result (λ file. string_bytes file ≡ spec.source_name name.now) }
{
    format!(in alloc; "{name}.c")
}
