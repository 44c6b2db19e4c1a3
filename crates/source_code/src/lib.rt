//! From the bytes of a C source to its code, which does what the source means.

#![tactic(auto)]

mod plain;
mod stamps;

pub use plain::plain_code;
pub use stamps::stamp;
