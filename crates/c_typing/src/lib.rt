//! What the names of a source mean and which types its expressions have: its typed form, the faults
//! that it can have, and the law that what has none is sound.

#![tactic(auto)]

pub mod fault;
mod laws;
pub mod names;

pub use fault::TypeFault;
pub use laws::typed_sound;
pub use names::Meaning;
