//! The law of bytes behind notes. It speaks of definitions alone, so that no change of a body
//! proves it again.

ghost use Rattle.notes_end.specs.Ends.{IsExtraExactly};

/// The fault Extra is told exactly of bytes that are a file of notes with more bytes behind it,
/// none of which can belong to it, and its place is the end of that file.
///
/// It does nothing: a caller gets its clause for these bytes.
pub fn extra_is_behind(bytes: &[u8])
    ensures { IsExtraExactly bytes.now }
{}
