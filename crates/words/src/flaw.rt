//! What is wrong with a line.
ghost use Rattle.std.specs.Prelude.{◌≡◌};
ghost use Rattle.words.specs.Left.{seen};
ghost use Rattle.words.specs.Flaws.{of_line, at_word};

use crate::word::Word;
use access::refusal::Refusal;

/// What is wrong with a line, and the column where: that of a word, or 1 for the line as a whole.
#[derive(Clone, Copy, Debug, PartialEq, Eq)]
pub struct Flaw {
    pub refusal: Refusal,
    pub column: usize,
}

impl Flaw {
    pub fn of_line(refusal: Refusal) -> Flaw
        ensures { result ≡ of_line refusal }
    {
        Flaw { refusal, column: 1 }
    }

    pub fn at(word: Word<'_>, refusal: Refusal) -> Flaw
        ensures { result ≡ at_word (seen word.entry) refusal }
    {
        Flaw {
            refusal,
            column: word.column,
        }
    }
}
