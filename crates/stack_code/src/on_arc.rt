//! What stands on an arc.

use stack_ops::Op;

/// What stands on an arc, in order.
#[derive(Clone, Copy)]
pub struct OnArc {
    /// What counts the arc.
    pub counts: Option<Op>,
    /// What begins paths or goes on with them.
    pub traces: Option<Op>,
}
