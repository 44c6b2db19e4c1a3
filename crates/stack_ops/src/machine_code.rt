//! A program as lists of operations.

use crate::operation::Op;
use std::marker::Model;

/// The functions of a program, its globals as they are at the start, and the number of the main
/// function.
#[derive(Drop)]
pub struct Code {
    pub stamp: u32,
    /// The operations count arcs and mark paths.
    pub covered: bool,
    pub main: u32,
    pub globals: Vec<i128>,
    pub functions: Vec<FunctionCode>,
}

impl Model for Code {
    ghost use Rattle.stack_ops.specs.Code.{CodeValue};

    ghost Value = { CodeValue };

    ghost view = { λ c. record {
      stamp = c.stamp;
      covered = c.covered;
      main = c.main;
      globals = c.globals.items;
      functions = c.functions.items;
    } };
}

/// A function: its parameters come into the first of its cells, its operands have room for its
/// depth.
#[derive(Drop)]
pub struct FunctionCode {
    pub params: u32,
    pub cells: u32,
    pub depth: u32,
    /// The function gives its caller a number.
    pub gives: bool,
    pub checksum: u32,
    pub counters: u32,
    pub paths: u32,
    /// How many rows of path words `PathPass` may name.
    pub passes: u32,
    pub ops: Vec<Op>,
    /// The path words of the start and of each row.
    pub table: Vec<u64>,
}

impl Model for FunctionCode {
    ghost use Rattle.stack_ops.specs.Code.{FunctionValue};

    ghost Value = { FunctionValue };

    ghost view = { λ f. record {
      params = f.params;
      cells = f.cells;
      depth = f.depth;
      gives = f.gives;
      checksum = f.checksum;
      counters = f.counters;
      paths = f.paths;
      passes = f.passes;
      ops = f.ops.items;
      table = f.table.items;
    } };
}
