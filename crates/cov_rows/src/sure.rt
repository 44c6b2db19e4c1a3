//! The top call where nothing outside fails.

ghost use Rattle.std.specs.Prelude.{◌≡◌, ◌≢◌, ◌++◌, true, map, string_bytes};
ghost use Rattle.cov_outside.specs.Memory.{sure_wants, sure_written};
ghost use Rattle.cov_outside.specs.Outside.{Rose};
ghost use Rattle.cov_answers.specs.Answers.{is_silent, line_of};
ghost use Rattle.cov_words.specs.Reading.{reading};
ghost use Rattle.cov_program.specs.Meant.{IsComplete, IsMeant};
ghost use Rattle.cov_program.specs.Performs.{Answers, Leaves};
ghost use Rattle.cov_rows.specs.Sure.{sure_outside};

use cov_outside::{SureFolder, SureSink, SureSource};
use cov_program::{End, perform};
use std::alloc::Global;

/// The top call where nothing outside fails.
pub fn perform_surely(
    alloc: Global,
    words: &[String],
    input: &mut SureSource,
    out: &mut SureSink,
    err: &mut SureSink,
    folder: &mut SureFolder,
) -> End
    // What the command does, and why it ends so.
    ensures answers { Answers (reading (map string_bytes words.now))
        (sure_outside input.old out.old folder.old) (sure_outside input.new out.new folder.new)
        result }

    // What a cover has written is what its source means, and where all is there it is done.
    ensures meant { IsMeant (reading (map string_bytes words.now))
        (sure_outside input.old out.old folder.old) (sure_outside input.new out.new folder.new)
        result }
    ensures complete { IsComplete (reading (map string_bytes words.now))
        (sure_outside input.old out.old folder.old) result }

    // The outside is never blamed.
    ensures writes { result ≢ End.WriteFault }
    ensures loads { result ≢ End.FolderFault }
    ensures reads { result ≢ End.ReadFault }

    // What stands after the command.
    ensures leaves { Leaves (reading (map string_bytes words.now)) result input.old input.new
        out.old out.new folder.old folder.new }
    ensures silent { is_silent result ≡ true → sure_written err.new ≡ sure_written err.old }

    // The whole line of the answer comes where the error output wants no memory.
    ensures told { (Rose (sure_wants err.old) (sure_wants err.new) → ⊥)
        → sure_written err.new ≡ sure_written err.old ++ line_of result }
{
    perform(alloc, words, input, out, err, folder)
}
