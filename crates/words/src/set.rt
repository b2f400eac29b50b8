//! Words that name sets of contexts.
ghost use Rattle.std.specs.Prelude.{◌≡◌};
ghost use Rattle.std.specs.List.{list_all, list_any};
ghost use Rattle.access.specs.Contexts.{marked};
ghost use Rattle.words.specs.Shape.{is_name};
ghost use Rattle.words.specs.Parts.{parts};
ghost use Rattle.words.specs.Left.{seen};
ghost use Rattle.words.specs.Contexts.{is_known, is_called, set_in};

use crate::context::is_name;
use crate::flaw::Flaw;
use crate::names::Names;
use crate::word::Word;
use access::context_set::ContextSet;
use access::refusal::Refusal;

/// Whether each part of a word between commas has the shape of a name.
fn has_names(word: &[u8]) -> bool
    ensures { result ≡ list_all is_name (parts 44 word.now) }
{
    word.split(|&byte| byte == b',').all(is_name)
}

/// Whether each part of a word between commas names a context.
fn is_known(names: &Names, word: &[u8]) -> bool
    ensures { result ≡ list_all (is_known names.now) (parts 44 word.now) }
{
    word.split(|&byte| byte == b',')
        .all(|name| names.find(name).is_some())
}

/// The contexts that the parts of a word between commas name.
fn members(names: &Names, word: &[u8]) -> ContextSet
    ensures { result ≡ marked (λ c. list_any (is_called names.now c) (parts 44 word.now)) }
{
    let mut set = ContextSet::none();
    for name in word.split(|&byte| byte == b',') {
        if let Some(context) = names.find(name) {
            set = set.with(context);
        }
    }
    set.is_its_members();
    set
}

/// The set of contexts that a word names: names parted by commas.
pub fn set(names: &Names, word: Word<'_>) -> Result<ContextSet, Flaw>
    ensures { result ≡ set_in names.now (seen word.entry) }
{
    if !has_names(word.bytes) {
        return Err(Flaw::at(word, Refusal::UnfitWord));
    }
    if !is_known(names, word.bytes) {
        return Err(Flaw::at(word, Refusal::UnfitName));
    }
    Ok(members(names, word.bytes))
}
