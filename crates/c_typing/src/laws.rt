//! Laws of the typed forms of sources, each as the contract of a function that does nothing.

ghost use Rattle.c_typing.specs.Laws.{TypedSound};

/// What a source is typed as in which no fault of names and types stands is sound.
#[tactic(auto, using(crate::proofs::SourceSound::typed_sound))]
pub fn typed_sound()
    ensures { TypedSound }
{}
