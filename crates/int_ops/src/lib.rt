//! C's integer types, the conversions between them and the operators on their numbers.

#![tactic(auto)]

mod apply;
mod common;
mod exact;
pub mod num;
pub mod operators;
mod ranges;
pub mod types;

pub use apply::{binary, unary};
pub use common::{common_type, promoted};
pub use num::Num;
pub use operators::{ArithTrap, BinOp, UnOp};
pub use ranges::{convert, greatest, is_in_range, is_signed, least, width};
pub use types::IntType;
