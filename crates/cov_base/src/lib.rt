//! Flow nets of C functions, and the words for the walks through them.

#![tactic(auto)]

mod faults;
mod limits;
pub mod net;
pub mod no_memory;
mod reach;
pub mod refusal;

pub use limits::{
    ARC_LIMIT, ARRAY_LIMIT, BLOCK_LIMIT, DEFAULT_TURNS, FILE_LIMIT, LEVEL_LIMIT, OUTPUT_LIMIT,
    PARAMETER_LIMIT, SOURCE_LIMIT, UNIT_LIMIT,
};
pub use net::{ArcKind, FlowArc, Net, NetFault, falls};
pub use no_memory::NoMemory;
pub use refusal::Refusal;

#[cfg(test)]
mod tests;
