//! The items of files, words, longs, strings and headers of records, read and written one after
//! another.

#![tactic(auto)]

pub mod reader;
mod writer;

pub use reader::{Reader, Short, StringFault};
pub use writer::{put_header, put_long, put_string, put_word};
