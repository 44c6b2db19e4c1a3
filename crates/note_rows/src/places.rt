//! The places that faults tell.

ghost use Rattle.std.specs.Prelude.{◌≡◌};
ghost use Rattle.note_rows.specs.Places as spec;

use gcno_format::FileFault;

/// The place in the bytes that the fault tells.
pub fn place_of(fault: &FileFault) -> u64
    ensures { result ≡ spec.place_of fault.now }
{
    match *fault {
        FileFault::Short(end) => end,
        FileFault::Magic(word) => word,
        FileFault::Version(word) => word,
        FileFault::Tag(record) => record,
        FileFault::Length(length) => length,
        FileFault::Text(string) => string,
        FileFault::Order(number) => number,
        FileFault::Net(record) => record,
        FileFault::Number(limit) => limit,
        FileFault::Extra(end) => end,
    }
}
