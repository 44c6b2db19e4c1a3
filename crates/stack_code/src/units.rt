//! The code of a unit of graphs.

ghost use Rattle.std.specs.Prelude.{◌≡◌, ℕ, ◌+◌, ◌*◌, ◌≤◌, length, IfOk};
ghost use Rattle.flow_graph.specs.Nets.{blocks_size, net_of, graphs_size, size_of};
ghost use Rattle.fake_arcs.specs.Size.{counted};
ghost use Rattle.stack_code.specs.UnitCode as spec;
ghost use Rattle.stack_code.specs.Covering.{is_covered};

use crate::blocks::graph_code;
use crate::depth::graph_depth;
use crate::marks::ArcMarks;
use crate::shape::{EmitFault, Mode, Shape};
use cov_base::{Refusal, UNIT_LIMIT};
use flow_graph::{Graph, GraphUnit};
use path_masks::Rows;
use stack_ops::{Code, FunctionCode};
use std::alloc::{AllocError, Global};

/// The code of the unit, which is pruned and has a shape for each of its graphs, in order. A plain
/// code counts nothing, and asks for no shapes.
///
/// # Errors
///
/// `TablesTooLarge` exactly where the mode is `Covered` and the rows of all functions have more
/// than 2,097,152 numbers. `NoMemory` where memory ran out.
pub fn emit(
    alloc: Global,
    unit: &GraphUnit,
    shapes: &[Shape],
    stamp: u32,
    mode: Mode,
) -> Result<Code, Refusal<EmitFault>>
    requires { size_of unit.now ≤ UNIT_LIMIT }
    ensures { spec.MakesCode (is_covered mode) unit.now shapes.now stamp result }
{
    if let Some(fault) = tables_fault(shapes, mode) {
        return Err(Refusal::Refused(fault));
    }
    let code = unit_code(alloc, unit, shapes, stamp, mode)?;
    Ok(code)
}

/// The numbers of all tables of a code.
const TABLE_LIMIT: u64 = 2_097_152;

fn is_covered(mode: Mode) -> bool
    ensures { result ≡ is_covered mode }
{
    match mode {
        Mode::Plain => false,
        Mode::Covered => true,
    }
}

fn tables_fault(shapes: &[Shape], mode: Mode) -> Option<EmitFault>
    ensures { result ≡ spec.tables_fault (is_covered mode) shapes.now }
{
    match mode {
        Mode::Plain => None,
        Mode::Covered => fault_of_size(tables_size(shapes)),
    }
}

fn fault_of_size(size: u64) -> Option<EmitFault>
    ensures { (n : ℕ) → size ≡ counted n → result ≡ spec.size_fault n }
{
    if size > TABLE_LIMIT {
        Some(EmitFault::TablesTooLarge(size))
    } else {
        None
    }
}

fn tables_size(shapes: &[Shape]) -> u64
    ensures { result ≡ counted (spec.tables_size shapes.now) }
{
    let mut size = 0u64;
    for shape in shapes {
        size = size.saturating_add(table_size(&shape.rows));
    }
    size
}

fn table_size(rows: &Option<Rows>) -> u64
    ensures { result ≡ length (spec.table_in rows.now) }
{
    match rows {
        Some(rows) => rows.table().len() as u64,
        None => 0,
    }
}

fn unit_code(
    alloc: Global,
    unit: &GraphUnit,
    shapes: &[Shape],
    stamp: u32,
    mode: Mode,
) -> Result<Code, AllocError>
    requires { size_of unit.now ≤ UNIT_LIMIT }
    ensures { IfOk result
        (λ c. c ≡ spec.unit_code (is_covered mode) unit.now shapes.now stamp) }
{
    let covered = is_covered(mode);
    let functions = functions_of(alloc, &unit.graphs, shapes, covered)?;
    Ok(Code {
        stamp,
        covered,
        main: unit.main,
        globals: Vec::from_slice(alloc, &unit.globals)?,
        functions,
    })
}

fn functions_of(
    alloc: Global,
    graphs: &[Graph],
    shapes: &[Shape],
    covered: bool,
) -> Result<Vec<FunctionCode>, AllocError>
    requires { graphs_size graphs.now ≤ UNIT_LIMIT }
    ensures { IfOk result
        (λ v. v.items ≡ spec.functions_from covered graphs.now shapes.now 0 graphs.now) }
{
    let mut functions = Vec::new(alloc);
    for (number, graph) in graphs.iter().enumerate() {
        let marks = ArcMarks::of(shapes, covered, number);
        functions.push(function_of(alloc, graphs, graph, &marks)?)?;
    }
    Ok(functions)
}

fn function_of(
    alloc: Global,
    graphs: &[Graph],
    graph: &Graph,
    marks: &ArcMarks<'_>,
) -> Result<FunctionCode, AllocError>
    requires { blocks_size graph.now.blocks + 8 * length ((net_of graph.now).arcs) ≤ UNIT_LIMIT }
    ensures { IfOk result (λ f. f ≡ spec.function_code graphs.now graph.now marks.now) }
{
    let counts = marks.counts(alloc)?;
    Ok(FunctionCode {
        params: graph.params,
        cells: graph.cells,
        depth: graph_depth(alloc, graphs, graph)?,
        gives: graph.gives,
        checksum: counts.checksum,
        counters: counts.counters,
        paths: counts.paths,
        passes: counts.passes,
        ops: graph_code(alloc, marks, graph)?,
        table: counts.table,
    })
}
