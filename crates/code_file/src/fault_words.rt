//! The faults of a code file in words, and their places.

ghost use Rattle.std.specs.Prelude.{◌≡◌};
ghost use Rattle.code_file.specs.FaultWords as spec;

use crate::fault::CodeFault;

impl CodeFault {
    /// The fault in words, as messages have it.
    pub fn words(self) -> &'static str
        ensures { result.now ≡ spec.words self }
    {
        match self {
            CodeFault::Short(_) => "short",
            CodeFault::Magic(_) => "magic",
            CodeFault::Version(_) => "version",
            CodeFault::Field(_) => "field",
            CodeFault::Opcode(_) => "opcode",
            CodeFault::Jump(_) => "jump",
            CodeFault::BackJump(_) => "back jump",
            CodeFault::Depth(_) => "depth",
            CodeFault::Cell(_) => "cell",
            CodeFault::Counter(_) => "counter",
            CodeFault::Row(_) => "row",
            CodeFault::Extra(_) => "extra",
        }
    }

    /// Its place in the bytes of a file; of a code in memory, see `Checked::of`.
    pub fn place(self) -> u64
        ensures { result ≡ spec.place self }
    {
        match self {
            CodeFault::Short(place) => place,
            CodeFault::Magic(place) => place,
            CodeFault::Version(place) => place,
            CodeFault::Field(place) => place,
            CodeFault::Opcode(place) => place,
            CodeFault::Jump(place) => place,
            CodeFault::BackJump(place) => place,
            CodeFault::Depth(place) => place,
            CodeFault::Cell(place) => place,
            CodeFault::Counter(place) => place,
            CodeFault::Row(place) => place,
            CodeFault::Extra(place) => place,
        }
    }
}
