//! What the definitions of lines, words and columns promise.
ghost use Rattle.policy_text.specs.Laws.{PartsLaw, ColumnsLaw};

/// Parts put together again are what was cut, none holds the mark at which it was cut, and each word stands at its column.
pub fn text_laws_stand()
    ensures parts { PartsLaw }
    ensures columns { ColumnsLaw }
{}
