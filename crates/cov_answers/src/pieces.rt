//! The pieces of an answer's line: words, a name, numbers and what stands between.

ghost use Rattle.std.specs.Prelude.{◌≡◌};
ghost use Rattle.cov_answers.specs.Answers as spec;

use crate::answers::{End, SourceFault};
use crate::file_faults::{fault_place, fault_words};
use stack_ops::Trap;

/// The first words of the line of an answer.
pub fn words_of(end: &End) -> &'static [u8]
    ensures { result.now ≡ spec.words_of end.now }
{
    match end {
        End::Done | End::Ran(_) => b"",
        End::Trapped(_, _) => b"cov: trapped ",
        End::OutOfTurns(_) => b"cov: out of turns after ",
        End::Usage(_) => {
            b"cov: usage: cover SRC IN.. | build SRC | run NAME | report NAME | merge A B OUT | make N"
        }
        End::ConditionCoverage => b"cov: condition coverage is left out",
        End::SourceRefused(_) => b"cov: source: ",
        End::Missing(_) => b"cov: missing ",
        End::TooLong(_) => b"cov: too long ",
        End::BadCode(_) => b"cov: bad code ",
        End::BadNotes(_) => b"cov: bad notes ",
        End::BadData(_) => b"cov: bad data ",
        End::OtherBuild(_, _) => b"cov: other build ",
        End::SourceChanged(_, _) => b"cov: source changed ",
        End::OtherShape(_) => b"cov: other shape of function ",
        End::NotAFlow(_, _) => b"cov: no flow in function ",
        End::RunsPassed => b"cov: runs passed",
        End::CountPassed(_, _) => b"cov: count passed in function ",
        End::ReadFault => b"cov: read fault",
        End::WriteFault => b"cov: write fault",
        End::FolderFault => b"cov: folder fault",
        End::NoMemory => b"cov: no memory",
    }
}

/// What an answer names: a file, a trap or a fault; or nothing.
pub fn name_of(end: &End) -> &[u8]
    ensures { result.now ≡ spec.name_of end.now }
{
    match end {
        End::Trapped(trap, _) => trap_words(*trap),
        End::SourceRefused(fault) => source_words(*fault).as_bytes(),
        End::BadCode(fault) => fault.words().as_bytes(),
        End::BadNotes(fault) | End::BadData(fault) => fault_words(*fault).as_bytes(),
        End::Missing(name) | End::TooLong(name) => name.as_bytes(),
        _ => b"",
    }
}

/// The words between what an answer names and its number, or nothing.
pub fn link_of(end: &End) -> &'static [u8]
    ensures { result.now ≡ spec.link_of end.now }
{
    match end {
        End::Trapped(_, _) => b" at line ",
        End::SourceRefused(fault) => source_link(*fault).as_bytes(),
        End::BadCode(_) | End::BadNotes(_) | End::BadData(_) => b" at byte ",
        _ => b"",
    }
}

/// The number that an answer tells, if it tells one.
pub fn number_of(end: &End) -> Option<u64>
    ensures { result ≡ spec.number_of end.now }
{
    match end {
        End::Trapped(_, line) => Some(u64::from(*line)),
        End::OutOfTurns(turns) => Some(*turns),
        End::SourceRefused(fault) => Some(source_number(*fault)),
        End::BadCode(fault) => Some(fault.place()),
        End::BadNotes(fault) | End::BadData(fault) => Some(fault_place(*fault)),
        End::OtherBuild(number, _)
        | End::SourceChanged(number, _)
        | End::OtherShape(number)
        | End::NotAFlow(number, _)
        | End::CountPassed(number, _) => Some(u64::from(*number)),
        _ => None,
    }
}

/// The words before the second number of an answer, or nothing.
pub fn second_link_of(end: &End) -> &'static [u8]
    ensures { result.now ≡ spec.second_link_of end.now }
{
    match end {
        End::OtherBuild(_, _) | End::SourceChanged(_, _) => b" ",
        End::NotAFlow(_, _) => b" at arc ",
        End::CountPassed(_, _) => b" at counter ",
        _ => b"",
    }
}

/// The second number that an answer tells, if it tells one.
pub fn second_number_of(end: &End) -> Option<u64>
    ensures { result ≡ spec.second_number_of end.now }
{
    match end {
        End::OtherBuild(_, number)
        | End::SourceChanged(_, number)
        | End::NotAFlow(_, number)
        | End::CountPassed(_, number) => Some(u64::from(*number)),
        _ => None,
    }
}

/// A trap in words.
fn trap_words(trap: Trap) -> &'static [u8]
    ensures { result.now ≡ spec.trap_words trap }
{
    match trap {
        Trap::Overflow => b"overflow",
        Trap::DivideByZero => b"divide by zero",
        Trap::ShiftRange => b"shift range",
        Trap::BadIndex => b"bad index",
        Trap::CallDepth => b"call depth",
        Trap::OutputLimit => b"output limit",
    }
}

/// The fault of a source in words.
fn source_words(fault: SourceFault) -> &'static str
    ensures { result.now ≡ spec.source_words fault }
{
    match fault {
        SourceFault::NotAccepted(fault) => fault.words(),
        SourceFault::TablesTooLarge(_) => "tables too large",
    }
}

/// The words between those and its number.
fn source_link(fault: SourceFault) -> &'static str
    ensures { result.now ≡ spec.source_link fault }
{
    match fault {
        SourceFault::NotAccepted(fault) => fault.link(),
        SourceFault::TablesTooLarge(_) => " ",
    }
}

/// Its place in the source, or how large what is too large is.
fn source_number(fault: SourceFault) -> u64
    ensures { result ≡ spec.source_number fault }
{
    match fault {
        SourceFault::NotAccepted(fault) => fault.number(),
        SourceFault::TablesTooLarge(words) => words,
    }
}
