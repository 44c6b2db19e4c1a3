//! The check of expressions: what names mean where they stand, the typed form of an expression, or
//! a fault that stands in it; what constant expressions come to.

#![tactic(auto)]

pub mod constants;
pub mod expr;
pub mod forms;
pub mod scopes;
