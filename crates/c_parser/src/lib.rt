//! Declarations, statements and sources: the tree of a C text's tokens.

#![tactic(auto)]

mod conditions;
mod declarations;
mod for_heads;
mod loops;
mod made;
mod params;
mod parser;
mod sources;
mod statements;
mod switches;

pub use c_grammar::ParseFault;
pub use parser::parse;
