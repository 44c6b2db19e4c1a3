//! What is wrong with the bytes of notes or data.

/// What is wrong with the bytes of notes or data, with the place in them.
#[derive(Clone, Copy, Debug, PartialEq, Eq)]
pub enum FileFault {
    /// The bytes end within a file, here.
    Short(u64),
    /// The first word isn't that of such a file.
    Magic(u64),
    /// The version isn't this one.
    Version(u64),
    /// This is no tag of the record that is due.
    Tag(u64),
    /// This is no length that the record can have.
    Length(u64),
    /// A string isn't one, or isn't a name of C.
    Text(u64),
    /// The number of a function or of a block isn't in order.
    Order(u64),
    /// The blocks, arcs, flags, checksum or lines of a function make no net.
    Net(u64),
    /// A number is above its limit.
    Number(u64),
    /// Bytes stand behind the file, from here on.
    Extra(u64),
}
