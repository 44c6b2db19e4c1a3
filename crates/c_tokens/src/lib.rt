//! The tokens of a C text.

#![tactic(auto)]

mod bytes;
mod items;
mod laws;
mod literals;
mod quoted;
mod scanner;
pub mod token;
mod words;

pub use laws::names_of_letters;
pub use scanner::scan;
pub use token::{Keyword, LeftWord, LexFault, Punct, Token, TokenKind};
