//! Whether words are a command.

ghost use Rattle.std.specs.Prelude.{map, string_bytes, IfOk, IsTrue, ◌↔◌};
ghost use Rattle.cov_words.specs.Reading.{IsCommand, reading};

use cov_base::{NoMemory, Refusal};
use cov_words::read_words;
use std::alloc::Global;

/// Whether the words after the program's name are a command.
pub fn is_command(alloc: Global, words: &[String]) -> Result<bool, NoMemory>
    ensures { IfOk result
        (λ known. IsTrue known ↔ IsCommand (reading (map string_bytes words.now))) }
{
    match read_words(alloc, words) {
        Ok(_) => Ok(true),
        Err(Refusal::Refused(_)) => Ok(false),
        Err(Refusal::NoMemory) => Err(NoMemory),
    }
}
