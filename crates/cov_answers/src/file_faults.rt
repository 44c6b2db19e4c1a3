//! The faults of files of notes and data in words.

ghost use Rattle.std.specs.Prelude.{◌≡◌};
ghost use Rattle.cov_answers.specs.FileFaults as spec;

use gcov_records::FileFault;

/// The fault in words, as messages have it.
pub fn fault_words(fault: FileFault) -> &'static str
    ensures { result.now ≡ spec.words fault }
{
    match fault {
        FileFault::Short(_) => "short",
        FileFault::Magic(_) => "magic",
        FileFault::Version(_) => "version",
        FileFault::Tag(_) => "tag",
        FileFault::Length(_) => "length",
        FileFault::Text(_) => "text",
        FileFault::Order(_) => "order",
        FileFault::Net(_) => "net",
        FileFault::Number(_) => "number",
        FileFault::Extra(_) => "extra",
    }
}

/// Its place in the file, in bytes.
pub fn fault_place(fault: FileFault) -> u64
    ensures { result ≡ spec.place fault }
{
    match fault {
        FileFault::Short(place)
        | FileFault::Magic(place)
        | FileFault::Version(place)
        | FileFault::Tag(place)
        | FileFault::Length(place)
        | FileFault::Text(place)
        | FileFault::Order(place)
        | FileFault::Net(place)
        | FileFault::Number(place)
        | FileFault::Extra(place) => place,
    }
}
