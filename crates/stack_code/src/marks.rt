//! What stands on the arcs of a function.

ghost use Rattle.std.specs.Prelude.{◌≡◌, ◌≤◌, ◌++◌, length, IfOk, OnOk};
ghost use Rattle.std.specs.List.{position};
ghost use Rattle.std.specs.Option.{option_to_list};
ghost use Rattle.cov_base.specs.Net.{joins};
ghost use Rattle.stack_code.specs.Arcs.{ops_on, is_before};
ghost use Rattle.stack_code.specs.Modes as spec;
ghost use Rattle.stack_code.specs.UnitCode as unit;

use crate::on_arc::OnArc;
use crate::shape::Shape;
use arc_counters::Plan;
use cov_base::{FlowArc, Net};
use path_masks::Rows;
use stack_ops::Op;
use std::alloc::{AllocError, Global};
use std::marker::Model;

/// What a function counts.
#[derive(Drop)]
pub struct Counts {
    pub checksum: u32,
    pub counters: u32,
    pub paths: u32,
    /// How many rows a path may go on by.
    pub passes: u32,
    pub table: Vec<u64>,
}

impl Model for Counts {
    ghost use Rattle.stack_code.specs.UnitCode.{Counts as CountsSeen};

    ghost Value = { CountsSeen };

    ghost view = { λ c. record {
      checksum = c.checksum;
      counters = c.counters;
      paths = c.paths;
      passes = c.passes;
      table = c.table.items;
    } };
}

/// What stands on the arcs of a function of this shape, or of one that counts nothing.
#[derive(Drop)]
pub struct ArcMarks<'a> {
    shape: Option<&'a Shape>,
}

impl<'a> Model for ArcMarks<'a> {
    ghost use Rattle.std.specs.Prelude.{Option};
    ghost use Rattle.std.specs.Option.{option_copied};
    ghost use Rattle.stack_code.specs.Modes.{ShapeValue};

    ghost Value = { Option ShapeValue };

    ghost view = { λ m. option_copied m.shape };
}

impl<'a> ArcMarks<'a> {
    /// Those of the function of this number, where a code counts by these shapes or doesn't.
    pub fn of(shapes: &'a [Shape], covered: bool, number: usize) -> ArcMarks<'a>
        ensures { result ≡ spec.shape_of covered shapes.now number }
    {
        if !covered {
            return ArcMarks { shape: None };
        }
        ArcMarks {
            shape: shapes.get(number),
        }
    }

    /// What the function counts.
    pub fn counts(&self, alloc: Global) -> Result<Counts, AllocError>
        ensures { IfOk result (λ c. c ≡ unit.counts_by self.now) }
    {
        match self.shape {
            Some(shape) => Ok(Counts {
                checksum: shape.checksum,
                counters: shape.plan.count(),
                paths: shape.paths,
                passes: passes_in(&shape.rows),
                table: table_in(alloc, &shape.rows)?,
            }),
            None => Ok(Counts {
                checksum: 0,
                counters: 0,
                paths: 0,
                passes: 0,
                table: Vec::new(alloc),
            }),
        }
    }

    fn on_arc(&self, from: u32, to: u32) -> OnArc
        ensures { ops_on result ≡ spec.shape_marks self.now from to }
    {
        match self.shape {
            Some(shape) => marks_of(shape, from, to),
            None => OnArc {
                counts: None,
                traces: None,
            },
        }
    }

    /// How many operations stand on the arc.
    pub fn count(&self, from: u32, to: u32) -> u32
        ensures value { result ≡ length (spec.shape_marks self.now from to) }
        ensures few { result ≤ 2 }
    {
        let on = self.on_arc(from, to);
        u32::from(on.counts.is_some()) + u32::from(on.traces.is_some())
    }

    /// Puts what stands on the arc behind operations.
    pub fn put(&self, from: u32, to: u32, ops: &mut Vec<Op>) -> Result<(), AllocError>
        ensures { OnOk result
            (ops.new.items ≡ ops.old.items ++ spec.shape_marks self.now from to) }
    {
        let on = self.on_arc(from, to);
        put_some(on.counts, ops)?;
        put_some(on.traces, ops)
    }
}

fn passes_in(rows: &Option<Rows>) -> u32
    ensures { result ≡ unit.passes_in rows.now }
{
    match rows {
        Some(rows) => rows.count(),
        None => 0,
    }
}

fn table_in(alloc: Global, rows: &Option<Rows>) -> Result<Vec<u64>, AllocError>
    ensures { IfOk result (λ v. v.items ≡ unit.table_in rows.now) }
{
    match rows {
        Some(rows) => Vec::from_slice(alloc, rows.table()),
        None => Ok(Vec::new(alloc)),
    }
}

fn put_some(op: Option<Op>, ops: &mut Vec<Op>) -> Result<(), AllocError>
    ensures { OnOk result (ops.new.items ≡ ops.old.items ++ option_to_list op) }
{
    match op {
        Some(op) => {
            ops.push(op)?;
            Ok(())
        }
        None => Ok(()),
    }
}

fn marks_of(shape: &Shape, from: u32, to: u32) -> OnArc
    ensures { ops_on result ≡ spec.covered_marks shape.now from to }
{
    let arc = arc_between(&shape.net, from, to);
    OnArc {
        counts: counting(&shape.plan, arc),
        traces: tracing(&shape.rows, arc, from, to),
    }
}

fn counting(plan: &Plan, arc: Option<u32>) -> Option<Op>
    ensures { option_to_list result ≡ spec.counting (spec.counter_of plan.now arc) }
{
    let counter = plan.counter(arc?)?;
    Some(Op::Count(counter))
}

fn tracing(rows: &Option<Rows>, arc: Option<u32>, from: u32, to: u32) -> Option<Op>
    ensures { option_to_list result ≡ spec.tracing rows.now arc from to }
{
    match rows {
        Some(_) if from == 0 && to == 2 => Some(Op::PathBegin),
        Some(rows) => passing(rows, arc),
        None => None,
    }
}

fn passing(rows: &Rows, arc: Option<u32>) -> Option<Op>
    ensures { option_to_list result ≡ spec.passing (spec.row_of rows.now.passes arc) }
{
    let row = rows.row_number(arc?)?;
    Some(Op::PathPass(row))
}

/// The index of the arc from one block to another; the arcs of a net ascend by their ends.
fn arc_between(net: &Net, from: u32, to: u32) -> Option<u32>
    ensures { result ≡ position (joins from to) net.now.arcs }
{
    let arcs = net.arcs();
    let place = arcs.partition_point(|arc| is_before(arc, from, to));
    let arc = arcs.get(place)?;
    if is_between(arc, from, to) {
        return Some(place as u32);
    }
    None
}

fn is_before(arc: &FlowArc, from: u32, to: u32) -> bool
    ensures { result ≡ is_before from to arc.now }
{
    arc.from < from || (arc.from == from && arc.to < to)
}

fn is_between(arc: &FlowArc, from: u32, to: u32) -> bool
    ensures { result ≡ joins from to arc.now }
{
    arc.from == from && arc.to == to
}
