//! The program `cov`: the top call over standard input, output and error and the current folder.
#![tactic(auto)]

ghost use Rattle.std.specs.Prelude.{IfErr};
ghost use Rattle.cov.specs.Finished.{Finishes};
ghost use Rattle.cov.specs.Wordless.{IsWordless};

use cov_outside::{DirFolder, Folder, Sink, Source, StdErr, StdSink, StdSource};
use cov_program::{End, perform, status_of, tell};
use cov_words::UsageFault;
use std::alloc::Global;
use std::env::Args;
use std::io::ErrorKind;
use std::process::ExitCode;
use std::{env, io};

fn main(rt: HostRuntime) -> ExitCode {
    let status = finish(
        rt.alloc(),
        words(rt.alloc(), env::args(&rt)),
        &mut StdSource::new(rt.stdin()),
        &mut StdSink::new(rt.stdout()),
        &mut StdErr::new(rt.stderr()),
        &mut DirFolder::new(rt.alloc(), &rt),
    );
    ExitCode::from(status)
}

/// Does what the words ask for over this outside, and gives the exit status of the answer. Where
/// there are no words, it tells why.
fn finish<S: Source, K: Sink, E: Sink, F: Folder>(
    alloc: Global,
    words: Result<Vec<String>, End>,
    input: &mut S,
    out: &mut K,
    err: &mut E,
    folder: &mut F,
) -> u8
    ensures { Finishes words
        (record {
          outside = record {
            files = F.files folder.old;
            input = S.remaining input.old;
            output = K.written out.old;
            folder_faults = F.faults folder.old;
            input_faults = S.faults input.old;
            output_faults = K.faults out.old;
            output_wants = K.wants out.old;
          };
          errors = E.written err.old;
          error_faults = E.faults err.old;
          error_wants = E.wants err.old;
        })
        (record {
          outside = record {
            files = F.files folder.new;
            input = S.remaining input.new;
            output = K.written out.new;
            folder_faults = F.faults folder.new;
            input_faults = S.faults input.new;
            output_faults = K.faults out.new;
            output_wants = K.wants out.new;
          };
          errors = E.written err.new;
          error_faults = E.faults err.new;
          error_wants = E.wants err.new;
        })
        result input.old input.new out.old out.new err.old err.new folder.old folder.new }
{
    match words {
        Ok(words) => {
            let end = perform(alloc, &words, input, out, err, folder);
            status_of(&end)
        }
        Err(end) => {
            let _ = tell(&end, err);
            status_of(&end)
        }
    }
}

/// The words after the program's name.
fn words(alloc: Global, args: io::Result<Args>) -> Result<Vec<String>, End>
    ensures { IfErr result IsWordless }
{
    match args {
        Ok(args) => Ok(args.skip(1).collect(alloc)?),
        Err(error) => Err(wordless(&error)),
    }
}

/// The answer where there are no words: they aren't text, or memory ran out.
fn wordless(error: &io::Error) -> End
    ensures { IsWordless result }
{
    match error.kind() {
        ErrorKind::OutOfMemory => End::NoMemory,
        _ => End::Usage(UsageFault::UnknownCommand),
    }
}
