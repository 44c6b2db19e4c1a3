//! The reader of a code.

ghost use Rattle.std.specs.Prelude.{◌≡◌, None, IfOk};
ghost use Rattle.code_runs.specs.CodeChecks.{items_fault};
ghost use Rattle.code_file.specs.Reading as item;
ghost use Rattle.code_file.specs.Spelling.{magic, version};
ghost use Rattle.code_file.specs.Taking as spec;

use crate::checked::{Checked, kept};
use crate::fault::CodeFault;
use crate::head::Head;
use crate::placed_checks::values_fault;
use crate::taking::{take_at_most, take_fixed, take_number, take_word};
use crate::taking_functions::{Places, take_functions};
use crate::write::{MAGIC, VERSION};
use code_checks::main_kept;
use cov_base::{ARRAY_LIMIT, Refusal};
use gcov_items::Reader;
use stack_ops::Code;
use std::alloc::Global;

/// Reads the code of a file: exactly where the bytes are its written form and it breaks no rule.
/// Otherwise the first fault is told with its place: each item is tested once it stands whole, and
/// what instructions and tables are among others once no byte is left. Memory is taken for what
/// stands in the bytes alone; the time goes by the bytes too.
pub fn read_code(alloc: Global, bytes: &[u8]) -> Result<Checked, Refusal<CodeFault>>
    ensures { spec.Reads (item.told bytes.now) result }
{
    let mut reader = Reader::new(bytes);
    let items = take_items(alloc, &mut reader)?;
    if reader.left() != 0 {
        return Err(Refusal::Refused(CodeFault::Extra(reader.place())));
    }
    checked(alloc, items, bytes.len() as u64)
}

/// All items of a file.
#[derive(Drop)]
struct FileItems {
    code: Code,
    /// The place of the number of the main function.
    main_at: u64,
    places: Vec<Places>,
}

/// The code, where nothing is wrong with its main function, its instructions and its tables.
fn checked(alloc: Global, items: FileItems, end: u64) -> Result<Checked, Refusal<CodeFault>>
    requires items { items_fault items.code ≡ None }
    requires places { spec.FitAll end items.code.functions items.places.items }
    ensures { spec.Reads
        (spec.told_of (spec.items_in items.code items.main_at items.places.items)) result }
{
    let code = items.code;
    if !main_kept(&code) {
        return Err(Refusal::Refused(CodeFault::Field(items.main_at)));
    }
    match values_fault(alloc, &code, &code.functions, &items.places, end) {
        Ok(None) => Ok(kept(code)),
        Ok(Some(fault)) => Err(Refusal::Refused(fault)),
        Err(_) => Err(Refusal::NoMemory),
    }
}

fn take_items(alloc: Global, reader: &mut Reader<'_>) -> Result<FileItems, Refusal<CodeFault>>
    ensures value { spec.Takes (λ i. spec.items_in i.code i.main_at i.places.items)
        spec.with_items_here reader.old reader.new result }
    ensures places { IfOk result (λ i. spec.HavePlaces i.code.functions i.places.items) }
{
    let head = take_head(reader)?;
    let globals = take_globals(alloc, reader, head.globals)?;
    let count = take_word(reader)?;
    let (functions, places) = take_functions(alloc, reader, count, head.covered)?;
    Ok(FileItems {
        code: Code {
            stamp: head.stamp,
            covered: head.covered,
            main: head.main,
            globals,
            functions,
        },
        main_at: head.main_at,
        places,
    })
}

/// The items up to the number of globals.
fn take_head(reader: &mut Reader<'_>) -> Result<Head, Refusal<CodeFault>>
    ensures { spec.Takes (λ h. h) spec.with_head_here reader.old reader.new result }
{
    take_magic(reader)?;
    take_version(reader)?;
    let stamp = take_word(reader)?;
    let covered = take_at_most(reader, 1)?;
    let main = take_main(reader)?;
    let globals = take_at_most(reader, ARRAY_LIMIT as u32)?;
    Ok(Head {
        stamp,
        covered: covered == 1,
        main: main.0,
        main_at: main.1,
        globals,
    })
}

fn take_magic(reader: &mut Reader<'_>) -> Result<(), Refusal<CodeFault>>
    ensures { spec.Takes (λ x. magic) spec.with_magic reader.old reader.new result }
{
    let fault = CodeFault::Magic(reader.place());
    take_fixed(reader, MAGIC, fault)
}

fn take_version(reader: &mut Reader<'_>) -> Result<(), Refusal<CodeFault>>
    ensures { spec.Takes (λ x. version) spec.with_version reader.old reader.new result }
{
    let fault = CodeFault::Version(reader.place());
    take_fixed(reader, VERSION, fault)
}

/// The number of the main function, with its place.
fn take_main(reader: &mut Reader<'_>) -> Result<(u32, u64), Refusal<CodeFault>>
    ensures { spec.Takes (λ x. x) spec.with_main reader.old reader.new result }
{
    let place = reader.place();
    let main = take_word(reader)?;
    Ok((main, place))
}

/// So many globals.
fn take_globals(
    alloc: Global,
    reader: &mut Reader<'_>,
    count: u32,
) -> Result<Vec<i128>, Refusal<CodeFault>>
    ensures { spec.Takes (λ v. v.items) (spec.with_first_globals count)
        reader.old reader.new result }
{
    let mut globals = Vec::new(alloc);
    for _ in 0..count {
        take_global(reader, &mut globals)?;
    }
    Ok(globals)
}

/// Adds the next global.
fn take_global(reader: &mut Reader<'_>, globals: &mut Vec<i128>) -> Result<(), Refusal<CodeFault>>
    ensures { spec.Takes (λ x. globals.new.items) (spec.with_global globals.old.items)
        reader.old reader.new result }
{
    let fault = CodeFault::Field(reader.place());
    let n = take_number(reader, fault)?;
    globals.push(n)?;
    Ok(())
}
