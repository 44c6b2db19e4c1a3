//! What the code of a unit is made by, beside the unit.

use arc_counters::Plan;
use cov_base::Net;
use path_masks::Rows;
use std::marker::Model;

/// Whether a code counts what its runs do.
#[derive(Clone, Copy, Debug, PartialEq, Eq)]
pub enum Mode {
    /// It counts nothing.
    Plain,
    /// It counts arcs and marks paths.
    Covered,
}

/// Why a unit has no code.
#[derive(Clone, Copy, Debug, PartialEq, Eq)]
pub enum EmitFault {
    /// The rows of all functions have so many numbers, more than 2,097,152. A row has the number of
    /// its entries, and three numbers for each entry where a call begins and four on an arc. The
    /// count stands still at 2^64 - 1.
    TablesTooLarge(u64),
}

/// What a function of a code that counts is made by.
#[derive(Drop)]
pub struct Shape {
    /// The net of its graph.
    pub net: Net,
    /// The counters of the arcs off the net's spanning tree.
    pub plan: Plan,
    /// The rows of its listed paths, if it has any.
    pub rows: Option<Rows>,
    /// How many paths are listed, at most 65,536.
    pub paths: u32,
    /// The checksum of the net.
    pub checksum: u32,
}

impl Model for Shape {
    ghost use Rattle.stack_code.specs.Modes.{ShapeValue};

    ghost Value = { ShapeValue };

    ghost view = { λ s. record {
      net = s.net;
      plan = s.plan;
      rows = s.rows;
      paths = s.paths;
      checksum = s.checksum;
    } };
}
