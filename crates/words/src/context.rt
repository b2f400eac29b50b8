//! Words that name contexts.
ghost use Rattle.std.specs.Prelude.{◌≡◌};
ghost use Rattle.words.specs.Shape.{is_name};
ghost use Rattle.words.specs.Left.{seen};
ghost use Rattle.words.specs.Contexts.{context_in, name_in};

use crate::flaw::Flaw;
use crate::name::Name;
use crate::names::Names;
use crate::word::Word;
use access::refusal::Refusal;

/// Whether a word has the shape of a name.
pub(crate) fn is_name(word: &[u8]) -> bool
    ensures { result ≡ is_name word.now }
{
    Name::read(word).is_some()
}

/// The name that a word is.
pub fn name(word: Word<'_>) -> Result<Name, Flaw>
    ensures { result ≡ name_in (seen word.entry) }
{
    Name::read(word.bytes).ok_or(Flaw::at(word, Refusal::UnfitWord))
}

/// The number of the context that a word names.
pub fn context(names: &Names, word: Word<'_>) -> Result<u16, Flaw>
    ensures { result ≡ context_in names.now (seen word.entry) }
{
    if !is_name(word.bytes) {
        return Err(Flaw::at(word, Refusal::UnfitWord));
    }
    names
        .find(word.bytes)
        .ok_or(Flaw::at(word, Refusal::UnfitName))
}
