//! Laws of code files, each as the contract of a function that does nothing.

ghost use Rattle.code_file.specs.Laws.{
  FilesAreSpelled,
  FilesAreLaid,
  FrontsAreShort,
  NoneIsFront,
  ShortIsEnd,
  MoreIsExtra,
  ExtraIsMore,
  SpelledIsRead,
};

/// What bytes are as a code file: those of a file are the spelling of its code, which breaks no
/// rule; no file is a proper front of another; what ends too early does so at its end, and what
/// stands behind a whole file is told at its place; and the spelling of a code that breaks no rule
/// is its file, where the numbers that no rule bounds fit words.
pub fn reading()
    ensures spelled { FilesAreSpelled }
    ensures laid { FilesAreLaid }
    ensures short { FrontsAreShort }
    ensures none { NoneIsFront }
    ensures ends { ShortIsEnd }
    ensures extra { MoreIsExtra }
    ensures more { ExtraIsMore }
    ensures whole { SpelledIsRead }
{}
