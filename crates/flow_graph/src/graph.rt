//! Graphs of blocks.

use c_tree::Ident;
use stack_ops::Op;
use std::marker::Model;

/// How a block ends.
#[derive(Debug, Drop)]
pub enum Ending {
    /// It goes to a block.
    Jump(u32),
    /// It goes back to a block, which takes a turn.
    Back(u32),
    /// It takes a number and goes to the first block where it isn't 0, and else to the second.
    Branch(u32, u32),
    /// It takes a number and goes to the block of the case that has it, and else to the default.
    Switch(Vec<(i128, u32)>, u32),
    /// It calls a function, whose name stands on the line, and then goes to the block.
    Call(u32, u32, u32),
    /// It ends the function.
    Return,
    /// It takes a number and ends the run.
    Exit,
}

/// A block.
#[derive(Debug, Drop)]
pub struct Block {
    pub ops: Vec<Op>,
    pub end: Ending,
    /// The lines of the source that it is of, ascending and each once.
    pub lines: Vec<u32>,
}

/// The graph of a function. Its first block is block 2; block 0 is the entry and block 1 the exit.
#[derive(Debug, Drop)]
pub struct Graph {
    pub name: Ident,
    /// The line of the function's name.
    pub line: u32,
    pub params: u32,
    pub cells: u32,
    /// The function gives a number.
    pub gives: bool,
    pub blocks: Vec<Block>,
}

/// The graphs of a source's functions, the numbers that its globals begin with, and the number of
/// `main`.
#[derive(Debug, Drop)]
pub struct GraphUnit {
    pub globals: Vec<i128>,
    pub main: u32,
    pub graphs: Vec<Graph>,
}

impl Model for Block {
    ghost use Rattle.flow_graph.specs.Graph.{Block as BlockSeen};
    ghost use Rattle.flow_graph.specs.GraphView.{ending_view};

    ghost Value = { BlockSeen };

    ghost view = { λ b. record {
      ops = b.ops.items;
      end = ending_view b.end;
      lines = b.lines.items;
    } };
}

impl Model for Graph {
    ghost use Rattle.flow_graph.specs.Graph.{Graph as GraphSeen};

    ghost Value = { GraphSeen };

    ghost view = { λ g. record {
      name = g.name;
      line = g.line;
      params = g.params;
      cells = g.cells;
      gives = g.gives;
      blocks = g.blocks.items;
    } };
}

impl Model for GraphUnit {
    ghost use Rattle.flow_graph.specs.Graph.{GraphUnit as UnitSeen};

    ghost Value = { UnitSeen };

    ghost view = { λ u. record {
      globals = u.globals.items;
      main = u.main;
      graphs = u.graphs.items;
    } };
}
