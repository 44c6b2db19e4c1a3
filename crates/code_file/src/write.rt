//! The writer of a code.

ghost use Rattle.std.specs.Prelude.{◌≡◌, ◌<◌, ◌^◌, ◌++◌, ◌∷◌, [], true, OnOk, IfOk, None};
ghost use Rattle.std.specs.List.{All};
ghost use Rattle.code_runs.specs.CodeChecks.{is_number, number_there, code_fault};
ghost use Rattle.int_ops.specs.Codes.{type_code};
ghost use Rattle.code_file.specs.InWords.{FitWords, words_of, IsFunctionInWords};
ghost use Rattle.code_file.specs.OpItems as item;
ghost use Rattle.code_file.specs.Reading.{File, told};
ghost use Rattle.code_file.specs.Spelling as spec;

use crate::op_items::{Fields, fields_of, op_code};
use cov_base::NoMemory;
use gcov_items::{put_long, put_word};
use int_ops::IntType;
use stack_ops::{Code, FunctionCode, Op};
use std::alloc::Global;

pub const MAGIC: u32 = 0x70636f64;

pub const VERSION: u32 = 0x50323072;

/// The file of the code, which is read as this code.
pub fn write_code(alloc: Global, code: &Code) -> Result<Vec<u8>, NoMemory>
    requires { code_fault code.now ≡ None }
    ensures spelled { IfOk result (λ bytes. bytes.items ≡ spec.code_bytes code.now) }
    ensures reads { IfOk result (λ bytes. told bytes.items ≡ File code.now) }
{
    let mut out = Vec::new(alloc);
    let globals = code.globals.len() as u32;
    put_words(
        &mut out,
        &[
            MAGIC,
            VERSION,
            code.stamp,
            code.covered as u32,
            code.main,
            globals,
        ],
    )?;
    put_globals(&mut out, &code.globals)?;
    put_words(&mut out, &[code.functions.len() as u32])?;
    put_functions(&mut out, &code.functions)?;
    Ok(out)
}

#[tactic(auto, unfolding(crate::specs::Spelling::words_bytes))]
fn put_words(out: &mut Vec<u8>, words: &[u32]) -> Result<(), NoMemory>
    ensures spelled { OnOk result (out.new.items ≡ out.old.items ++ spec.words_bytes words.now) }
    ensures fit { OnOk result (FitWords words.now) }
{
    for n in words.iter() {
        put_word(out, *n)?;
    }
    Ok(())
}

#[tactic(auto, unfolding(crate::specs::Spelling::numbers_bytes))]
fn put_globals(out: &mut Vec<u8>, globals: &[i128]) -> Result<(), NoMemory>
    requires { All (λ n. is_number n ≡ true) globals.now }
    ensures { OnOk result (out.new.items ≡ out.old.items ++ spec.numbers_bytes globals.now) }
{
    for n in globals.iter() {
        put_number(out, *n)?;
    }
    Ok(())
}

#[tactic(auto, unfolding(crate::specs::Spelling::functions_bytes))]
fn put_functions(out: &mut Vec<u8>, functions: &[FunctionCode]) -> Result<(), NoMemory>
    requires { All (λ f. spec.IsWritable f) functions.now }
    ensures spelled { OnOk result
        (out.new.items ≡ out.old.items ++ spec.functions_bytes functions.now) }
    ensures fit { OnOk result (All (λ f. IsFunctionInWords f) functions.now) }
{
    for function in functions.iter() {
        put_function(out, function)?;
    }
    Ok(())
}

fn put_function(out: &mut Vec<u8>, function: &FunctionCode) -> Result<(), NoMemory>
    requires { spec.IsWritable function.now }
    ensures spelled { OnOk result
        (out.new.items ≡ out.old.items ++ spec.function_bytes function.now) }
    ensures fit { OnOk result (IsFunctionInWords function.now) }
{
    put_words(
        out,
        &[
            function.params,
            function.cells,
            function.depth,
            function.gives as u32,
            function.checksum,
            function.counters,
            function.paths,
            function.passes,
            function.ops.len() as u32,
        ],
    )?;
    put_ops(out, &function.ops)?;
    put_table(out, &function.table)
}

#[tactic(auto, unfolding(crate::specs::Spelling::ops_bytes))]
fn put_ops(out: &mut Vec<u8>, ops: &[Op]) -> Result<(), NoMemory>
    requires { All (λ o. number_there o ≡ true) ops.now }
    ensures spelled { OnOk result (out.new.items ≡ out.old.items ++ spec.ops_bytes ops.now) }
    ensures fit { OnOk result (All (λ o. FitWords (words_of (item.fields_of o))) ops.now) }
{
    for op in ops.iter() {
        put_op(out, op)?;
    }
    Ok(())
}

#[tactic(auto, unfolding(crate::specs::Spelling::table_bytes))]
fn put_table(out: &mut Vec<u8>, table: &[u64]) -> Result<(), NoMemory>
    ensures spelled { OnOk result (out.new.items ≡ out.old.items ++ spec.table_bytes table.now) }
    ensures fit { OnOk result (All (λ n. n < 2 ^ 64) table.now) }
{
    for n in table.iter() {
        put_long(out, *n)?;
    }
    Ok(())
}

fn put_op(out: &mut Vec<u8>, op: &Op) -> Result<(), NoMemory>
    requires { number_there op.now ≡ true }
    ensures spelled { OnOk result (out.new.items ≡ out.old.items ++ item.op_bytes op.now) }
    ensures fit { OnOk result (FitWords (words_of (item.fields_of op.now))) }
{
    out.push(op_code(op))?;
    put_fields(out, fields_of(op))
}

fn put_fields(out: &mut Vec<u8>, fields: Fields) -> Result<(), NoMemory>
    requires { item.field_there fields ≡ true }
    ensures spelled { OnOk result (out.new.items ≡ out.old.items ++ item.field_bytes fields) }
    ensures fit { OnOk result (FitWords (words_of fields)) }
{
    match fields {
        Fields::None => Ok(()),
        Fields::Number(n) => put_number(out, n),
        Fields::Type(t) => put_type(out, t),
        Fields::At(t, line) => {
            put_type(out, t)?;
            put_word(out, line)
        }
        Fields::Word(w) => put_word(out, w),
        Fields::Words(w, v) => {
            put_word(out, w)?;
            put_word(out, v)
        }
        Fields::Case(n, w) => {
            put_number(out, n)?;
            put_word(out, w)
        }
    }
}

fn put_type(out: &mut Vec<u8>, t: IntType) -> Result<(), NoMemory>
    ensures { OnOk result (out.new.items ≡ out.old.items ++ (type_code t ∷ [])) }
{
    out.push(t.code())?;
    Ok(())
}

fn put_number(out: &mut Vec<u8>, n: i128) -> Result<(), NoMemory>
    requires { is_number n ≡ true }
    ensures { OnOk result (out.new.items ≡ out.old.items ++ item.number_bytes n) }
{
    if n < 0 {
        out.push(0)?;
        return put_long(out, u64::MAX - (-1 - n) as u64);
    }
    out.push(if n <= i64::MAX as i128 { 0 } else { 1 })?;
    put_long(out, n as u64)
}
