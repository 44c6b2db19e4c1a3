//! What the records of notes hold, before it is known whether they are those of nets.

use crate::marks::Marked;
use c_tree::Ident;
use std::marker::Model;

/// A record of lines.
#[derive(Drop)]
pub struct LinesRecord {
    /// The place of the record in the bytes.
    pub place: u64,
    /// The block.
    pub block: u32,
    /// The block's lines.
    pub lines: Vec<u32>,
}

impl Model for LinesRecord {
    ghost use Rattle.gcno_format.specs.Layout.{LinesValue};

    ghost Value = { LinesValue };

    ghost view = { λ r. record { place = r.place; block = r.block; lines = r.lines.items } };
}

/// The records of a function.
#[derive(Drop)]
pub struct Layout {
    /// The place of the first record in the bytes.
    pub place: u64,
    /// The function's name.
    pub name: Ident,
    /// The line of its name.
    pub line: u32,
    /// What is told as the checksum of its net.
    pub checksum: u32,
    /// How many blocks there are.
    pub blocks: u32,
    /// The arcs, by the blocks that they leave.
    pub arcs: Vec<Marked>,
    /// The records of lines, by their blocks.
    pub lines: Vec<LinesRecord>,
}

impl Model for Layout {
    ghost use Rattle.gcno_format.specs.Layout.{LayoutValue};

    ghost Value = { LayoutValue };

    ghost view = { λ l.
        record {
          place = l.place;
          name = l.name;
          line = l.line;
          checksum = l.checksum;
          blocks = l.blocks;
          arcs = l.arcs.items;
          lines = l.lines.items;
        } };
}

/// The records of a file.
#[derive(Drop)]
pub struct File {
    /// The stamp of the program.
    pub stamp: u32,
    /// The limit of paths.
    pub limit: u32,
    /// The functions, in order.
    pub functions: Vec<Layout>,
}

impl Model for File {
    ghost use Rattle.gcno_format.specs.Layout.{FileValue};

    ghost Value = { FileValue };

    ghost view = { λ f.
        record { stamp = f.stamp; limit = f.limit; functions = f.functions.items } };
}

/// How far the records of functions were read.
#[derive(Drop)]
pub struct Progress {
    /// The functions before the last one that was begun.
    pub before: Vec<Layout>,
    /// The last function that was begun.
    pub now: Layout,
    /// The number that the next function has.
    pub next: u32,
    /// The number of all functions.
    pub count: u32,
    /// The least block that the next record of arcs may have.
    pub arcs_from: u64,
    /// The least block that the next record of lines may have.
    pub lines_from: u64,
}

impl Model for Progress {
    ghost use Rattle.gcno_format.specs.Layout.{ProgressValue};

    ghost Value = { ProgressValue };

    ghost view = { λ p.
        record {
          before = p.before.items;
          now = p.now;
          next = p.next;
          count = p.count;
          arcs_from = p.arcs_from;
          lines_from = p.lines_from;
        } };
}
