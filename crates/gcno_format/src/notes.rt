//! The notes of a program.

use c_tree::Ident;
use cov_base::Net;
use std::marker::Model;

/// What a program's data are read by.
#[derive(Drop)]
pub struct Notes {
    /// The stamp of the program, by which its notes, code and data are known to be of one build.
    pub stamp: u32,
    /// The most prime paths that a function may have to be covered path by path, at most 65,536.
    pub limit: u32,
    /// The functions of the program, in order.
    pub functions: Vec<FunctionNotes>,
}

impl Model for Notes {
    ghost use Rattle.gcno_format.specs.Notes.{NotesValue};

    ghost Value = { NotesValue };

    ghost view = { λ n.
        record { stamp = n.stamp; limit = n.limit; functions = n.functions.items } };
}

/// A function of the program.
#[derive(Drop)]
pub struct FunctionNotes {
    /// Its name, which is a name of C.
    pub name: Ident,
    /// The line of its name, from 1.
    pub line: u32,
    /// The checksum of its net.
    pub checksum: u32,
    /// Its blocks and the arcs between them.
    pub net: Net,
}

impl Model for FunctionNotes {
    ghost use Rattle.gcno_format.specs.Notes.{FunctionNotesValue};

    ghost Value = { FunctionNotesValue };

    ghost view = { λ f.
        record { name = f.name; line = f.line; checksum = f.checksum; net = f.net } };
}
