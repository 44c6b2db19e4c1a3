//! What a report is written from.

use function_tallies::FunctionTally;
use std::marker::Model;

/// What a report is written from.
#[derive(Drop)]
pub struct Tally {
    /// How many runs there were.
    pub runs: u32,
    /// The functions of the program, in order.
    pub functions: Vec<FunctionTally>,
}

impl Model for Tally {
    ghost use Rattle.path_report.specs.Tally.{TallyValue};

    ghost Value = { TallyValue };

    ghost view = { λ t. record { runs = t.runs; functions = t.functions.items } };
}
