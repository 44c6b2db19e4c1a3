//! Where `break` and `continue` go.

ghost use Rattle.std.specs.Prelude.{◌≡◌};
ghost use Rattle.c_lower.specs.CloseView.{close_view};
ghost use Rattle.c_lower.specs.ExitView.{exit_view};

use crate::named::{Close, Label};

/// Where a `break` or a `continue` goes. Outside a loop it returns, which no checked source has.
#[derive(Clone, Copy, Debug)]
pub enum Exit {
    Jump(Label),
    Back(Label),
    Leave,
}

impl Exit {
    /// The ending of the block that has it.
    pub fn close(self) -> Close
        ensures { close_view result ≡ exit_view self }
    {
        match self {
            Exit::Jump(label) => Close::Jump(label),
            Exit::Back(label) => Close::Back(label),
            Exit::Leave => Close::Leave,
        }
    }
}

/// Where `break` and `continue` go.
#[derive(Clone, Copy, Debug)]
pub struct Exits {
    pub breaks: Exit,
    pub continues: Exit,
}
