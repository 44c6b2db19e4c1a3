//! The code of a unit of graphs: its layout, and the laws that it runs as the unit does and passes
//! the checks.

#![tactic(auto)]

mod blocks;
mod depth;
mod endings;
mod goals;
pub mod laws;
mod marks;
mod on_arc;
mod operands;
pub mod shape;
mod starts;
mod switches;
mod units;

pub use laws::emission;
pub use shape::{EmitFault, Mode, Shape};
pub use units::emit;
