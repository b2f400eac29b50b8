//! The words of a line.
ghost use Rattle.std.specs.Prelude.{◌≡◌};
ghost use Rattle.words.specs.Words.{words_of};

use crate::cut::length_to;

/// A word of a line, and the column of its first byte, from 1.
#[derive(Clone, Copy, Debug, PartialEq, Eq)]
pub struct Word<'a> {
    pub bytes: &'a [u8],
    pub column: usize,
}

/// The words of a line that are yet to come.
#[derive(Clone, Copy, Debug, PartialEq, Eq)]
pub struct Words<'a> {
    line: &'a [u8],
    // Where the next word begins; past the line's end no word is left.
    at: usize,
}

impl<'a> Words<'a> {
    ghost use Rattle.words.specs.Left.{left};

    /// The words of a line: each space parts two, which may be empty.
    pub fn of(line: &'a [u8]) -> Words<'a>
        ensures { left result ≡ words_of line.now }
    {
        Words { line, at: 0 }
    }
}

impl<'a> Iterator for Words<'a> {
    ghost use Rattle.std.specs.Iterator.{YieldsFirstBy, item_count};
    ghost use Rattle.words.specs.Left.{left, seen};

    type Item = Word<'a>;

    ghost next_gives = { YieldsFirstBy seen left };

    ghost remaining = { item_count left };

    fn next(&mut self) -> Option<Word<'a>> {
        if self.at > self.line.len() {
            return None;
        }
        let rest = &self.line[self.at..];
        let length = length_to(rest, b' ');
        let column = self.at + 1;
        self.at += length + 1;
        Some(Word {
            bytes: &rest[..length],
            column,
        })
    }
}
