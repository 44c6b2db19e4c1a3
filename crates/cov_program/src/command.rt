//! The top call: what each command does, over any input, output and folder.

ghost use Rattle.std.specs.Prelude.{◌≡◌, true, map, string_bytes};
ghost use Rattle.command_steps.specs.Names.{stem};
ghost use Rattle.cov_words.specs.Reading.{reading, value_of, Reads};
ghost use Rattle.cov_words.specs.Values.{is_source_name};
ghost use Rattle.cov_program.specs.Performs.{Acts, Leaves, Performs, Stands};
ghost use Rattle.cov_program.specs.Within.{IsWithin};

use build_command::{build, build_plain};
use cov_answers::{End, tell};
use cov_base::Refusal;
use cov_outside::{Folder, Sink, Source};
use cov_words::{Command, UsageFault, WordsFault, read_words};
use cover_command::{CoverWords, cover};
use file_commands::{merge_files, report};
use run_command::run;
use std::alloc::Global;

/// Does what the words ask for, and says how it ended; `words` are those after the program's name.
///
/// `cover [--turns N] [--path-limit N] SRC IN..` loads the C source SRC and compiles it to code
/// that counts, loads each input IN and runs the code on it, and writes the runs' texts and the
/// report on lines, blocks, arcs and prime paths to `out`. `build [--plain] [--path-limit N] SRC`
/// loads SRC, which is NAME`.c`, compiles it, and replaces NAME`.gcno` by its notes and NAME`.code`
/// by its code, or with `--plain` NAME`.code` alone by code that doesn't count. `run [--turns N]
/// NAME` loads NAME`.code`, reads `input` to its end, runs the code on it, writes the output to
/// `out`, and adds what was counted to NAME`.gcda`. `report NAME` loads NAME`.gcno`, NAME`.c` and
/// NAME`.gcda`, and writes the report to `out`. `merge A B OUT` loads A`.gcda` and B`.gcda`, and
/// replaces OUT`.gcda` by the counts of both. Where a command doesn't do all that it does, a line
/// on `err` says why.
pub fn perform<S: Source, K: Sink, E: Sink, F: Folder>(
    alloc: Global,
    words: &[String],
    input: &mut S,
    out: &mut K,
    err: &mut E,
    folder: &mut F,
) -> End
    // What each command does, why it ends so, and what is told and blamed.
    ensures performs { Performs (reading (map string_bytes words.now))
        (record {
          outside = record {
            files = F.files folder.old;
            input = S.remaining input.old;
            output = K.written out.old;
            folder_faults = F.faults folder.old;
            input_faults = S.faults input.old;
            output_faults = K.faults out.old;
            output_wants = K.wants out.old;
          };
          errors = E.written err.old;
          error_faults = E.faults err.old;
          error_wants = E.wants err.old;
        })
        (record {
          outside = record {
            files = F.files folder.new;
            input = S.remaining input.new;
            output = K.written out.new;
            folder_faults = F.faults folder.new;
            input_faults = S.faults input.new;
            output_faults = K.faults out.new;
            output_wants = K.wants out.new;
          };
          errors = E.written err.new;
          error_faults = E.faults err.new;
          error_wants = E.wants err.new;
        })
        result }

    // What is left as it was.
    ensures stands { Stands (reading (map string_bytes words.now)) result input.old input.new
        out.old out.new err.old err.new folder.old folder.new }
{
    let end = answer(alloc, words, input, out, folder);
    let _ = tell(&end, err);
    end
}

/// Does what the words ask for, but for the line on the error output.
fn answer<S: Source, K: Sink, F: Folder>(
    alloc: Global,
    words: &[String],
    input: &mut S,
    out: &mut K,
    folder: &mut F,
) -> End
    ensures acts { Acts (reading (map string_bytes words.now))
        (record {
          files = F.files folder.old;
          input = S.remaining input.old;
          output = K.written out.old;
          folder_faults = F.faults folder.old;
          input_faults = S.faults input.old;
          output_faults = K.faults out.old;
          output_wants = K.wants out.old;
        })
        (record {
          files = F.files folder.new;
          input = S.remaining input.new;
          output = K.written out.new;
          folder_faults = F.faults folder.new;
          input_faults = S.faults input.new;
          output_faults = K.faults out.new;
          output_wants = K.wants out.new;
        })
        result }
    ensures leaves { Leaves (reading (map string_bytes words.now)) result input.old input.new
        out.old out.new folder.old folder.new }
{
    match read_words(alloc, words) {
        Ok(command) => act(alloc, command, input, out, folder),
        Err(Refusal::Refused(WordsFault::Usage(fault))) => End::Usage(fault),
        Err(Refusal::Refused(WordsFault::ConditionCoverage)) => End::ConditionCoverage,
        Err(Refusal::NoMemory) => End::NoMemory,
    }
}

/// Does what the command does.
fn act<S: Source, K: Sink, F: Folder>(
    alloc: Global,
    command: Command,
    input: &mut S,
    out: &mut K,
    folder: &mut F,
) -> End
    requires { IsWithin (value_of command) }
    ensures acts { Acts (Reads (value_of command))
        (record {
          files = F.files folder.old;
          input = S.remaining input.old;
          output = K.written out.old;
          folder_faults = F.faults folder.old;
          input_faults = S.faults input.old;
          output_faults = K.faults out.old;
          output_wants = K.wants out.old;
        })
        (record {
          files = F.files folder.new;
          input = S.remaining input.new;
          output = K.written out.new;
          folder_faults = F.faults folder.new;
          input_faults = S.faults input.new;
          output_faults = K.faults out.new;
          output_wants = K.wants out.new;
        })
        result }
    ensures leaves { Leaves (Reads (value_of command)) result input.old input.new out.old out.new
        folder.old folder.new }
{
    match command {
        Command::Cover(turns, limit, source, inputs) => {
            let words = CoverWords {
                turns,
                limit,
                source: &source,
                name: stem_of(&source),
                inputs: &inputs,
            };
            cover(alloc, words, out, folder)
        }
        Command::Build(true, _, source) => build_plain(alloc, &source, stem_of(&source), folder),
        Command::Build(false, limit, source) => {
            build(alloc, limit, &source, stem_of(&source), folder)
        }
        Command::Run(turns, name) => run(alloc, turns, &name, input, out, folder),
        Command::Report(name) => report(alloc, &name, out, folder),
        Command::Merge(first, second, merged) => {
            merge_files(alloc, &first, &second, &merged, folder)
        }
        Command::Make(_) => End::Usage(UsageFault::UnknownCommand),
    }
}

/// A source's name without its `.c`.
fn stem_of(source: &str) -> &str
    requires { is_source_name source.now ≡ true }
    ensures { result.now ≡ stem source.now }
{
    match source.strip_suffix(".c") {
        Some(front) => front,
        None => source,
    }
}
