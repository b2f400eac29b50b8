//! Words that name templates.
ghost use Rattle.std.specs.Prelude.{◌≡◌};
ghost use Rattle.words.specs.Left.{seen};
ghost use Rattle.words.specs.Templates.{template_in};

use crate::flaw::Flaw;
use crate::word::Word;
use access::property::Template;
use access::refusal::Refusal;

/// The template that a word names.
pub fn template(word: Word<'_>) -> Result<Template, Flaw>
    ensures { result ≡ template_in (seen word.entry) }
{
    if word.bytes == b"integrity".as_slice() {
        Ok(Template::Integrity)
    } else if word.bytes == b"confidentiality".as_slice() {
        Ok(Template::Confidentiality)
    } else if word.bytes == b"domain".as_slice() {
        Ok(Template::Domain)
    } else if word.bytes == b"consistency".as_slice() {
        Ok(Template::Consistency)
    } else {
        Err(Flaw::at(word, Refusal::UnfitWord))
    }
}
