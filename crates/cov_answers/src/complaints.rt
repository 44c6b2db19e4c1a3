//! What an answer says on the error output.

ghost use Rattle.std.specs.Prelude.{◌≡◌, ◌∷◌, [], ◌++◌, true, IsErrOf};
ghost use Rattle.cov_outside.specs.Outside.{HasCause, WritesAll};
ghost use Rattle.cov_answers.specs.Answers.{is_silent, line_of, digits_of};

use crate::answers::{End, is_silent};
use crate::pieces::{link_of, name_of, number_of, second_link_of, second_number_of, words_of};
use cov_outside::{Sink, SinkFault, write_all};
use itoa::Buffer;

/// Writes the line of the answer, if it has one. After a fault of the output a front of the line
/// was written.
pub fn tell<E: Sink>(end: &End, err: &mut E) -> Result<(), SinkFault>
    ensures line { WritesAll (E.written err.old) (E.written err.new) result (line_of end.now) }
    ensures cause { HasCause (E.faults err.old) (E.faults err.new)
        (IsErrOf result SinkFault.Failed) }
    ensures want { HasCause (E.wants err.old) (E.wants err.new)
        (IsErrOf result SinkFault.NoMemory) }
    ensures silent { is_silent end.now ≡ true → err.new ≡ err.old }
{
    if is_silent(end) {
        return Ok(());
    }
    write_line(
        err,
        words_of(end),
        name_of(end),
        link_of(end),
        number_of(end),
        second_link_of(end),
        second_number_of(end),
    )
}

/// Writes the words, the name, both numbers behind the words before them, and a newline.
fn write_line<E: Sink>(
    err: &mut E,
    words: &[u8],
    name: &[u8],
    link: &[u8],
    number: Option<u64>,
    second_link: &[u8],
    second_number: Option<u64>,
) -> Result<(), SinkFault>
    ensures line { WritesAll (E.written err.old) (E.written err.new) result (words.now ++ (name.now
        ++ ((link.now ++ digits_of number)
        ++ ((second_link.now ++ digits_of second_number) ++ 10 ∷ [])))) }
    ensures cause { HasCause (E.faults err.old) (E.faults err.new)
        (IsErrOf result SinkFault.Failed) }
    ensures want { HasCause (E.wants err.old) (E.wants err.new)
        (IsErrOf result SinkFault.NoMemory) }
{
    write_all(err, words)?;
    write_all(err, name)?;
    write_part(err, link, number)?;
    write_part(err, second_link, second_number)?;
    write_all(err, b"\n")
}

/// Writes the words and the number's digits behind them, if there is one.
fn write_part<E: Sink>(err: &mut E, words: &[u8], number: Option<u64>) -> Result<(), SinkFault>
    ensures part { WritesAll (E.written err.old) (E.written err.new) result (words.now
        ++ digits_of number) }
    ensures cause { HasCause (E.faults err.old) (E.faults err.new)
        (IsErrOf result SinkFault.Failed) }
    ensures want { HasCause (E.wants err.old) (E.wants err.new)
        (IsErrOf result SinkFault.NoMemory) }
{
    write_all(err, words)?;
    write_digits(err, number)
}

/// Writes the digits of a number, if there is one.
fn write_digits<E: Sink>(err: &mut E, number: Option<u64>) -> Result<(), SinkFault>
    ensures digits { WritesAll (E.written err.old) (E.written err.new) result (digits_of number) }
    ensures cause { HasCause (E.faults err.old) (E.faults err.new)
        (IsErrOf result SinkFault.Failed) }
    ensures want { HasCause (E.wants err.old) (E.wants err.new)
        (IsErrOf result SinkFault.NoMemory) }
{
    match number {
        None => Ok(()),
        Some(n) => write_all(err, Buffer::new().format(n).as_bytes()),
    }
}
