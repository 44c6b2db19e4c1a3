//! Blocks that have names until they are numbered.

use flow_graph::lines::Lines;
use stack_ops::Op;
use std::marker::Model;

/// The name of a block: the number of a node of the function's tree, in the order of the text, and
/// which of its blocks it is.
#[derive(Clone, Copy, Debug)]
pub struct Label {
    pub node: u32,
    pub part: u8,
}

impl Model for Label {
    ghost use Rattle.c_lower.specs.Items.{Name};

    ghost Value = { Name };

    ghost view = { λ l. record { node = l.node; part = l.part } };

    ghost inverse = { λ n. record { node = n.node; part = n.part } };
}

/// How a block ends.
#[derive(Debug, Drop)]
pub enum Close {
    Jump(Label),
    Back(Label),
    Branch(Label, Label),
    Select(Vec<(i128, Label)>, Label),
    /// The number of the function and the line of its name.
    CallTo(u32, u32, Label),
    Leave,
    Quit,
}

/// A block. One that nothing enters has no name.
#[derive(Debug, Drop)]
pub struct NamedBlock {
    pub name: Option<Label>,
    pub ops: Vec<Op>,
    pub close: Close,
    pub lines: Lines,
}

impl Model for NamedBlock {
    ghost use Rattle.c_lower.specs.Lowered.{Named};
    ghost use Rattle.c_lower.specs.CloseView.{close_view};

    ghost Value = { Named };

    ghost view = { λ b. record {
      name = b.name;
      ops = b.ops.items;
      close = close_view b.close;
      lines = b.lines;
    } };
}
