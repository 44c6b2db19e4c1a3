//! The counts of runs.

use std::marker::Model;

/// What the runs of a program leave that ended by return or exit.
#[derive(Debug, Drop)]
pub struct Data {
    /// The stamp of the program, by which its notes, code and data are known to be of one build.
    pub stamp: u32,
    /// How many runs there were.
    pub runs: u32,
    /// The functions of the program, in order.
    pub functions: Vec<FunctionData>,
}

impl Model for Data {
    ghost use Rattle.gcda_format.specs.Data.{DataValue};

    ghost Value = { DataValue };

    ghost view = { λ d. record { stamp = d.stamp; runs = d.runs; functions = d.functions.items } };
}

/// What the runs leave of a function.
#[derive(Debug, Drop)]
pub struct FunctionData {
    /// The checksum of the function's net.
    pub checksum: u32,
    /// How often each arc off the spanning tree was passed, at most 2^63 - 1 times.
    pub counters: Vec<u64>,
    /// A bit for each prime path, which says that some run covered it; path k is bit k modulo 64 of
    /// long k / 64. There are none where the function has more paths than the limit.
    pub bits: Vec<u64>,
}

impl Model for FunctionData {
    ghost use Rattle.gcda_format.specs.Data.{FunctionDataValue};

    ghost Value = { FunctionDataValue };

    ghost view = { λ f.
        record { checksum = f.checksum; counters = f.counters.items; bits = f.bits.items } };
}
