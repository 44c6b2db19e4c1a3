//! Graphs of typed sources.

ghost use Rattle.std.specs.Prelude.{◌≡◌, ◌≤◌, ◌<◌, ◌^◌, ◌++◌, length, map, replicate, None, OnOk, IfOk, IfErr};
ghost use Rattle.c_tree.specs.Runs.{all_of};
ghost use Rattle.c_tree.specs.TypedView.{typed_view, function_view};
ghost use Rattle.c_lower.specs.Items.{gives_number};
ghost use Rattle.c_lower.specs.Lowered.{graph_of, named_blocks};
ghost use Rattle.c_lower.specs.Refusals.{Lowers, LowersFunction, Refuses, cell_limit};
ghost use Rattle.c_lower.specs.Refusals.{globals_fault, frames_fault};

use crate::blocks::Blocks;
use crate::exits::{Exit, Exits};
use crate::named::NamedBlock;
use crate::numbers::number_blocks;
use crate::statements::statements;
use c_tree::{Base, Globals, Ident, NumberRun, Typed, TypedFunction};
use cov_base::{ARRAY_LIMIT, Refusal};
use flow_graph::{Graph, GraphUnit};
use std::alloc::{AllocError, Global};

/// The cells of a function's frame.
const CELL_LIMIT: u64 = 4096;

/// What lowering refuses.
#[derive(Clone, Copy, Debug, PartialEq, Eq)]
pub enum LowerFault {
    /// The frame of the function with this number has so many cells, more than 4,096.
    FrameTooLarge(u32, u64),
    /// The globals have so many cells, more than 1,048,576.
    GlobalsTooLarge(u64),
}

fn gives_number_in(base: Base) -> bool
    ensures { result ≡ gives_number base }
{
    match base {
        Base::Int(_) => true,
        Base::Void => false,
    }
}

/// The blocks of a function, which have names.
fn named(alloc: Global, f: &TypedFunction) -> Result<Vec<NamedBlock>, AllocError>
    ensures { IfOk result (λ v. v.items ≡ named_blocks (function_view f.now)) }
{
    let outside = Exits {
        breaks: Exit::Leave,
        continues: Exit::Leave,
    };
    let mut out = Blocks::begun(alloc, f.line)?;
    let mut next = 0;
    statements(&mut out, &mut next, f.body.as_slice(), &outside)?;
    out.finish(gives_number_in(f.result))
}

/// The graph of a function whose frame isn't too large.
fn graph(alloc: Global, f: &TypedFunction) -> Result<Graph, AllocError>
    requires { f.now.cells ≤ cell_limit }
    ensures { IfOk result (λ g. g ≡ graph_of (function_view f.now)) }
{
    let Ok(params) = u32::try_from(f.params.len()) else {
        return Err(AllocError);
    };
    let named = named(alloc, f)?;
    Ok(Graph {
        name: Ident::of(alloc, f.name.bytes())?,
        line: f.line,
        params,
        cells: f.cells as u32,
        gives: gives_number_in(f.result),
        blocks: number_blocks(alloc, named)?,
    })
}

/// The graph of the function with this number; it isn't pruned. Where many functions make a large
/// unit, each can be lowered and pruned before the next.
pub fn lower_function(
    alloc: Global,
    number: u32,
    f: &TypedFunction,
) -> Result<Graph, Refusal<LowerFault>>
    ensures { LowersFunction number (function_view f.now) result }
{
    if f.cells > CELL_LIMIT {
        return Err(Refusal::Refused(LowerFault::FrameTooLarge(number, f.cells)));
    }
    Ok(graph(alloc, f)?)
}

fn lower_all(alloc: Global, fs: &[TypedFunction]) -> Result<Vec<Graph>, Refusal<LowerFault>>
    ensures graphs { IfOk result (λ v. v.items ≡ map graph_of (map function_view fs.now)) }
    ensures few { IfOk result (λ v. length v.items < 2 ^ 32) }
    ensures fits { OnOk result (frames_fault 0 (map function_view fs.now) ≡ None) }
    ensures refused { IfErr result (Refuses (frames_fault 0 (map function_view fs.now))) }
{
    let mut graphs = Vec::new(alloc);
    let mut number = 0;
    for f in fs {
        if number == u32::MAX {
            return Err(Refusal::NoMemory);
        }
        graphs.push(lower_function(alloc, number, f)?)?;
        number += 1;
    }
    Ok(graphs)
}

/// The globals are within their limit.
pub fn check_globals(globals: &Globals) -> Result<(), Refusal<LowerFault>>
    ensures fits { OnOk result (globals_fault (length globals.now) ≡ None) }
    ensures refused { IfErr result (Refuses (globals_fault (length globals.now))) }
{
    if globals.len() > ARRAY_LIMIT {
        return Err(Refusal::Refused(LowerFault::GlobalsTooLarge(globals.len())));
    }
    Ok(())
}

/// The numbers of globals, one by one.
fn numbers_of(alloc: Global, runs: &[NumberRun]) -> Result<Vec<i128>, AllocError>
    ensures { IfOk result (λ v. v.items ≡ all_of runs.now) }
{
    let mut numbers = Vec::new(alloc);
    for run in runs {
        repeat(&mut numbers, *run)?;
    }
    Ok(numbers)
}

fn repeat(numbers: &mut Vec<i128>, run: NumberRun) -> Result<(), AllocError>
    ensures { OnOk result
        (numbers.new.items ≡ numbers.old.items ++ replicate run.count run.number) }
{
    let mut count = 0;
    while count < run.count {
        numbers.push(run.number)?;
        count += 1;
    }
    Ok(())
}

/// The graphs of a source, which aren't pruned. The globals are tested first, and then the frames
/// of the functions, in order.
pub fn lower(alloc: Global, typed: &Typed) -> Result<GraphUnit, Refusal<LowerFault>>
    ensures exact { Lowers (typed_view typed.now) result }
    ensures few { IfOk result (λ unit. length unit.graphs < 2 ^ 32) }
{
    check_globals(&typed.globals)?;
    let graphs = lower_all(alloc, typed.functions.as_slice())?;
    Ok(GraphUnit {
        globals: numbers_of(alloc, typed.globals.runs())?,
        main: typed.main,
        graphs,
    })
}
